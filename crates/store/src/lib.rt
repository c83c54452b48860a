// The cache's store in lent bytes: its header, its page bitmap, its places. (block.rs, Slot and BlockCache's fields)
#![tactic(auto)]

ghost use Rattle.std.specs.Prelude.{◌≡◌, ◌+◌, ◌-◌, ◌*◌, ◌/◌, ◌^◌, ◌<◌, ◌≤◌, true, ◌++◌, length, take, replicate, if◌then◌else◌};
ghost use Rattle.bits.specs.Bytes.{doubleword_at, part, patch};
ghost use Rattle.store.specs.Layout.{header_len, header, sized, in_bounds, front, store_len, geometry, stated, opened, Bounded, Fitting, holds, memory_page, slot_of, place_at, generation_of, bumped};
ghost use Rattle.store.specs.Places.{page_bit, put_bit, with_bit, empty_place, in_page, emptied, vacated, each_place, places_in, blank};

use block::{MAX_PAGES, PAGE, Slot};

// Where the reading, e, the base, the page count and the generation stand in the header, and its length.
const READING_AT: usize = 3;

const E_AT: usize = 6;

const BASE_AT: usize = 8;

const PAGES_AT: usize = 16;

const GENERATION_AT: usize = 24;

const HEADER: usize = 32;

// The header's first eight bytes as a number: "VBC", the reading, version 1, e, and a zero.
const SIGNATURE: u64 = 0x1_0043_4256;

const READING_UNIT: u64 = 0x100_0000;

const E_UNIT: u64 = 0x1_0000_0000_0000;

// What a store's header says, and the bytes of a place.
#[derive(Clone, Copy)]
pub struct Geometry {
    pub reading: u64,
    pub e: u64,
    pub base: u64,
    pub pages: u64,
    pub stride: usize,
}

// The bounds on e and memory.
fn sized(e: u64, base: u64, pages: u64) -> bool
    ensures { result ≡ sized e base pages }
{
    if 14 < e {
        return false;
    }
    // One comparison for no page and for too many.
    if MAX_PAGES <= pages.wrapping_sub(1) {
        return false;
    }
    block::good_memory(PAGE * pages, base)
}

// The bounds on the reading too.
pub fn in_bounds(reading: u64, e: u64, base: u64, pages: u64) -> bool
    ensures { result ≡ in_bounds reading e base pages }
{
    op::reading_known(reading) & sized(e, base, pages)
}

impl Geometry {
    // The geometry that these numbers say, in version 1.
    pub fn new(reading: u64, e: u64, base: u64, pages: u64) -> Self
        ensures { result ≡ geometry reading e base pages }
    {
        Self {
            reading,
            e,
            base,
            pages,
            stride: Slot::LEN,
        }
    }

    pub fn slots(self) -> usize
        requires { self.e ≤ 14 }
        ensures { (result ≡ 2 ^ self.e) × ((1 ≤ result) × (result ≤ 16384)) }
    {
        1usize << self.e
    }

    // Where the places begin.
    pub fn front(self) -> usize
        requires { self.pages ≤ 65536 }
        ensures { (result ≡ front self.pages) × (result ≤ 8224) }
    {
        HEADER + ((self.pages + 63) / 64 * 8) as usize
    }

    // The store's length.
    pub fn store_len(self) -> usize
        requires { Bounded self }
        ensures { result ≡ store_len self }
    {
        self.front() + self.stride * self.slots()
    }

    // Whether the address lies in the store's memory: below the base the difference wraps, and is no length of a memory.
    pub fn holds(self, address: u64) -> bool
        requires { Bounded self }
        ensures { result ≡ holds self address }
    {
        address.wrapping_sub(self.base) < PAGE * self.pages
    }

    // The page of an address in memory, counted from the base.
    pub fn memory_page(self, address: u64) -> u64
        requires { holds self address ≡ true }
        ensures { (result ≡ memory_page self address) × (result < self.pages) }
    {
        (address - self.base) / PAGE
    }

    // Where the place of the address's slot begins.
    pub fn place(self, address: u64) -> usize
        requires { Bounded self }
        ensures { result ≡ place_at self (slot_of self address) }
    {
        let slot = address / 2 % self.slots() as u64;
        self.front() + self.stride * slot as usize
    }
}

// What the header's bytes say.
fn stated(store: &[u8]) -> Geometry
    requires { header_len ≤ length store.now }
    ensures { (result ≡ stated store.now) × (result.e ≤ 255) }
{
    let reading = store[READING_AT] as u64;
    let e = store[E_AT] as u64;
    let base = bits::doubleword_at(store, BASE_AT);
    let pages = bits::doubleword_at(store, PAGES_AT);
    Geometry::new(reading, e, base, pages)
}

// The header's first eight bytes; read here, they are one load.
fn first_number(store: &[u8]) -> u64
    requires { header_len ≤ length store.now }
    ensures { result ≡ doubleword_at store.now 0 }
{
    bits::doubleword_at(store, 0)
}

// The header check: signature, bounds and length. Nothing else in the store is trusted.
pub fn open(store: &[u8]) -> Option<Geometry>
    ensures { result ≡ opened store.now }
{
    if store.len() < HEADER {
        return None;
    }
    let g = stated(store);
    let first = first_number(store);
    // Without its lowest bit byte 3 must be 0: that is the bound on the reading.
    if first - first / READING_UNIT % 2 * READING_UNIT != SIGNATURE + g.e * E_UNIT {
        return None;
    }
    if sized(g.e, g.base, g.pages) {
        if store.len() == g.store_len() {
            Some(g)
        } else {
            None
        }
    } else {
        None
    }
}

fn mask(k: u64) -> u8
    requires { k < 8 }
    ensures { (result ≡ 2 ^ k) × (1 ≤ result) }
{
    1u8 << k
}

// Whether the page, counted from the base, has its bit set.
#[tactic(auto, unfolding(crate::specs::Places::page_bit))]
pub fn page_bit(store: &[u8], page: u64) -> bool
    requires { header_len + page / 8 < length store.now }
    ensures { result ≡ page_bit store.now page }
{
    let i = (HEADER as u64 + page / 8) as usize;
    (u64::from(store[i]) >> (page % 8)) % 2 == 1
}

#[tactic(auto, unfolding(crate::specs::Places::put_bit))]
fn put_bit(byte: u8, k: u64, on: bool) -> u8
    requires { k < 8 }
    ensures { result ≡ put_bit on k byte }
{
    let m = mask(k);
    if on { byte | m } else { byte & (255 - m) }
}

// The page's bit becomes `on`.
#[tactic(auto, unfolding(crate::specs::Places::with_bit))]
pub fn set_bit(store: &mut [u8], page: u64, on: bool)
    requires { header_len + page / 8 < length store.old }
    ensures { store.new ≡ with_bit store.old page on }
{
    let i = (HEADER as u64 + page / 8) as usize;
    store[i] = put_bit(store[i], page % 8, on);
}

// The header's generation.
pub fn generation(store: &[u8]) -> u64
    requires { header_len ≤ length store.now }
    ensures { result ≡ generation_of store.now }
{
    bits::doubleword_at(store, GENERATION_AT)
}

// The generation goes one up.
#[tactic(auto, unfolding(crate::specs::Layout::bumped))]
pub fn bump(store: &mut [u8])
    requires { header_len ≤ length store.old }
    ensures { store.new ≡ bumped store.old }
{
    let next = generation(store).wrapping_add(1);
    bits::put_doubleword(store, GENERATION_AT, next);
}

fn empty(place: &mut [u8])
    requires { 8 ≤ length place.old }
    ensures { place.new ≡ empty_place (length place.old) }
{
    place.fill(0);
    bits::put_doubleword(place, 0, Slot::EMPTY);
}

// The count of places dropped so far, with this one if it is emptied. Passed on like this, it costs a place that stays no instruction.
#[tactic(auto, unfolding(crate::specs::Places::emptied))]
fn empty_if(place: &mut [u8], page: u64, dropped: u64) -> u64
    requires { (8 ≤ length place.old) × (dropped + 1 < 2 ^ 64) }
    ensures { (result ≡ dropped + (if in_page page place.old then 1 else 0)) × (place.new ≡ emptied page place.old) }
{
    if bits::doubleword_at(place, 0) / PAGE == page {
        empty(place);
        dropped + 1
    } else {
        dropped
    }
}

fn empty_at(store: &mut [u8], at: usize, stride: usize, page: u64, dropped: u64) -> u64
    requires { (8 ≤ stride) × (at + stride ≤ length store.old) × (dropped + 1 < 2 ^ 64) }
    ensures { (result ≡ dropped + (if in_page page (part store.old at stride) then 1 else 0)) × (store.new ≡ patch store.old at (emptied page (part store.old at stride))) }
{
    empty_if(&mut store[at..at + stride], page, dropped)
}

// Empties those of n places of `stride` bytes from `first` on that have an address in the page, which is counted from address 0, and says how many.
pub fn empty_places(store: &mut [u8], first: usize, stride: usize, n: usize, page: u64) -> u64
    requires { (8 ≤ stride) × (first + stride * n ≤ length store.old) }
    ensures { (result ≡ places_in page first stride n store.old) × (store.new ≡ each_place (emptied page) first stride n store.old) }
{
    let mut at = first;
    let mut dropped = 0;
    for _i in 0..n {
        dropped = empty_at(store, at, stride, page, dropped);
        at += stride;
    }
    dropped
}

// Zeros from here on.
fn clear_from(store: &mut [u8], at: usize)
    requires { at ≤ length store.old }
    ensures { store.new ≡ patch store.old at (replicate (length store.old - at) 0) }
{
    store[at..].fill(0);
}

// The address of an empty place for each of n.
fn vacate_places(store: &mut [u8], first: usize, stride: usize, n: usize)
    requires { (8 ≤ stride) × (first + stride * n ≤ length store.old) }
    ensures { store.new ≡ each_place vacated first stride n store.old }
{
    let mut at = first;
    for _i in 0..n {
        bits::put_doubleword(store, at, Slot::EMPTY);
        at += stride;
    }
}

// No bit set, all places empty; the header stays. Zeros go over all of it at once.
pub fn wipe(store: &mut [u8], g: Geometry)
    requires { Fitting g store.old }
    ensures { store.new ≡ take header_len store.old ++ blank g }
{
    clear_from(store, HEADER);
    vacate_places(store, g.front(), g.stride, g.slots());
}

// The header of a new store.
pub fn put_header(store: &mut [u8], g: Geometry)
    requires { (header_len ≤ length store.old) × ((g.reading ≤ 1) × (g.e ≤ 14)) }
    ensures { store.new ≡ patch store.old 0 (header g 1) }
{
    bits::put_doubleword(
        store,
        0,
        SIGNATURE + g.reading * READING_UNIT + g.e * E_UNIT,
    );
    bits::put_doubleword(store, BASE_AT, g.base);
    bits::put_doubleword(store, PAGES_AT, g.pages);
    bits::put_doubleword(store, GENERATION_AT, 1);
}
