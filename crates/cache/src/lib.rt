// The block cache: calls on one lent store. (block.rs, BlockCache)
#![tactic(auto)]

ghost use Rattle.std.specs.Prelude.{◌≡◌, true, ◌++◌, ◌+◌, ◌<◌, ◌^◌, length};
ghost use Rattle.store.specs.Layout.{header, opened, Fitting, holds};
ghost use Rattle.store.specs.Places.{place_for, blank};
ghost use Rattle.cache.specs.Answers.{lookup_value, lookup_part, nothing_done, reported};
ghost use Rattle.cache.specs.Calls.{make_judged, make_call, lookup_call, insert_judged, inserted_in, insert_call, summed, watched, evicted, noticed_in, dropped_in, report_in, notice_call, flush_call, generation_call};

use answer::{Answer, Refusal};
use block::{BlockRecord, PAGE};
use store::Geometry;

// What a notice did: the slots it examined, and the places it emptied.
#[derive(Clone, Copy)]
pub struct Report {
    pub examined: u64,
    pub dropped: u64,
}

// Where in the store the part begins that a lookup shows, and its length.
#[derive(Clone, Copy)]
pub struct Hit {
    pub at: usize,
    pub len: usize,
}

impl Report {
    pub fn nothing() -> Self
        ensures { result ≡ nothing_done }
    {
        Self {
            examined: 0,
            dropped: 0,
        }
    }
}

// The number beside a lookup's: where in the store the part begins.
pub fn value(answer: Answer<Hit>) -> u64
    ensures { result ≡ lookup_value answer }
{
    answer.map_or(0, |hit| hit.at as u64)
}

// What was done, as the answer of a notice says, of a list of them, or of a guest write: nothing beside a refusal.
pub fn reported(answer: Answer<Report>) -> Report
    ensures { result ≡ reported answer }
{
    answer.unwrap_or(Report::nothing())
}

fn judge_make(reading: u64, e: u64, base: u64, pages: u64, len: usize) -> Answer<Geometry>
    ensures { result ≡ make_judged reading e base pages len }
{
    if store::in_bounds(reading, e, base, pages) {
        let g = Geometry::new(reading, e, base, pages);
        if len == g.store_len() {
            Ok(g)
        } else {
            Err(Refusal::NoStore)
        }
    } else {
        Err(Refusal::BadGeometry)
    }
}

fn make_new(store: &mut [u8], g: Geometry)
    requires { Fitting g store.old }
    ensures { store.new ≡ header g 1 ++ blank g }
{
    store::put_header(store, g);
    store::wipe(store, g);
}

// A new store over the lent bytes, whatever they were.
pub fn make(store: &mut [u8], reading: u64, e: u64, base: u64, pages: u64) -> Answer<()>
    ensures { (result, store.new) ≡ make_call reading e base pages store.old }
{
    let g = judge_make(reading, e, base, pages, store.len())?;
    make_new(store, g);
    Ok(())
}

// Where the block at the address is, if the cache has it.
pub fn find(store: &[u8], address: u64) -> Answer<Hit>
    ensures { result ≡ lookup_call store.now address }
{
    let g = store::open(store).ok_or(Refusal::NoStore)?;
    if g.holds(address) {
        let at = g.place(address);
        if bits::doubleword_at(store, at) == address {
            Ok(Hit { at, len: g.stride })
        } else {
            Err(Refusal::NothingFound)
        }
    } else {
        Err(Refusal::NothingFound)
    }
}

// The place of the block at the address, as a part of the store, or an empty part.
pub fn lookup(store: &[u8], address: u64) -> &[u8]
    ensures { result.now ≡ lookup_part store.now (lookup_call store.now address) }
{
    match find(store, address) {
        Ok(Hit { at, len }) => &store[at..at + len],
        Err(_) => &store[..0],
    }
}

// All places empty, no bit set.
pub fn flush(store: &mut [u8]) -> Answer<()>
    ensures { (result, store.new) ≡ flush_call store.old }
{
    let g = store::open(store).ok_or(Refusal::NoStore)?;
    store::wipe(store, g);
    Ok(())
}

// How many insertions there were, wrapping.
pub fn generation(store: &[u8]) -> Answer<u64>
    ensures { result ≡ generation_call store.now }
{
    store::open(store).ok_or(Refusal::NoStore)?;
    Ok(store::generation(store))
}

fn watched(store: &[u8], g: Geometry, address: u64) -> bool
    requires { Fitting g store.now }
    ensures { result ≡ watched g store.now address }
{
    if g.holds(address) {
        store::page_bit(store, g.memory_page(address))
    } else {
        false
    }
}

// How many places it emptied. It stays out of `notice_in`, where the page is seldom marked.
#[inline(never)]
fn evict(store: &mut [u8], g: Geometry, address: u64) -> u64
    requires { Fitting g store.old × (holds g address ≡ true) }
    ensures { (result ≡ dropped_in g store.old address) × (store.new ≡ evicted g store.old address) }
{
    store::set_bit(store, g.memory_page(address), false);
    store::empty_places(store, g.front(), g.stride, g.slots(), address / PAGE)
}

// A notice in a store whose header was checked.
#[inline(always)]
pub fn notice_in(store: &mut [u8], g: Geometry, address: u64) -> Report
    requires { Fitting g store.old }
    ensures { (result ≡ report_in g store.old address) × (store.new ≡ noticed_in g store.old address) }
{
    if watched(store, g, address) {
        let dropped = evict(store, g, address);
        let examined = g.slots() as u64;
        Report { examined, dropped }
    } else {
        Report::nothing()
    }
}

// What two notices did.
pub fn sum(first: Report, second: Report) -> Report
    requires { (first.examined + second.examined < 2 ^ 64) × (first.dropped + second.dropped < 2 ^ 64) }
    ensures { result ≡ summed first second }
{
    Report {
        examined: first.examined + second.examined,
        dropped: first.dropped + second.dropped,
    }
}

// A write at the address was done. The notice comes after it and before the next lookup: a block inserted between notice and write would stay.
pub fn notice(store: &mut [u8], address: u64) -> Answer<Report>
    ensures { (result, store.new) ≡ notice_call store.old address }
{
    let g = store::open(store).ok_or(Refusal::NoStore)?;
    Ok(notice_in(store, g, address))
}

fn judge_insert(store: &[u8], address: u64, record: &[u8]) -> Answer<Geometry>
    ensures { result ≡ insert_judged (opened store.now) address «record».now }
{
    let g = store::open(store).ok_or(Refusal::NoStore)?;
    if record.len() != BlockRecord::LEN {
        return Err(Refusal::WrongBuffer);
    }
    if g.holds(address) {
        if block::well_formed(record, address) {
            Ok(g)
        } else {
            Err(Refusal::IllFormed)
        }
    } else {
        Err(Refusal::OutsideMemory)
    }
}

// The record writer: the slot's place is lent to it.
fn write_record(place: &mut [u8], record: &[u8])
    requires { length place.old ≡ length «record».now }
    ensures { place.new ≡ «record».now }
{
    place.copy_from_slice(record);
}

fn insert_in(store: &mut [u8], g: Geometry, address: u64, record: &[u8])
    requires { Fitting g store.old × ((holds g address ≡ true) × (length (place_for g «record».now) ≡ g.stride)) }
    ensures { store.new ≡ inserted_in g store.old address «record».now }
{
    let at = g.place(address);
    let stride = g.stride;
    store::set_bit(store, g.memory_page(address), true);
    store::bump(store);
    write_record(&mut store[at..at + stride], record);
}

// The record into the place of its slot.
pub fn insert(store: &mut [u8], address: u64, record: &[u8]) -> Answer<()>
    ensures { (result, store.new) ≡ insert_call store.old address «record».now }
{
    let g = judge_insert(store, address, record)?;
    insert_in(store, g, address, record);
    Ok(())
}
