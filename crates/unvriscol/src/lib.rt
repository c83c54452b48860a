// The C door: what the Rust core, or a C program, links. Each function is the call behind it on numbers and byte slices, promises what that call
// promises, by the same definition, and asks nothing of its caller. include/unvriscol.h declares them in this order.
#![tactic(auto)]

ghost use Rattle.std.specs.Prelude.{◌≡◌};
ghost use Rattle.answer.specs.Answer.{answer_number, answer_value};
ghost use Rattle.decode.specs.Call.{word_call, half_call};
ghost use Rattle.alu.specs.Call.{alu_call};
ghost use Rattle.form.specs.Call.{form_call};
ghost use Rattle.cache.specs.Answers.{lookup_value};
ghost use Rattle.cache.specs.Calls.{make_call, lookup_call, insert_call, notice_call, flush_call, generation_call};
ghost use Rattle.notices.specs.Notices.{notices_call};
ghost use Rattle.write.specs.Write.{write_call};
ghost use Rattle.unvriscol.specs.Seen.{both, report_seen, seen, seen_with_two};

use answer::Answer;
use cache::Report;

// The answer's number (docs/FORMATS.md), and the value beside it, which is 0 at every number but 0.
#[repr(C)]
#[derive(Drop)]
pub struct Numbered {
    pub number: u64,
    pub value: u64,
}

// The answer's number, and beside it the slots examined and the places emptied, which are 0 at every number but 0.
#[repr(C)]
#[derive(Drop)]
pub struct NumberedReport {
    pub number: u64,
    pub examined: u64,
    pub dropped: u64,
}

impl From<Answer<u64>> for Numbered {
    ghost from_gives = { λ answer it. (it.number, it.value) ≡ both answer_number answer_value answer };

    fn from(answer: Answer<u64>) -> Numbered {
        Numbered {
            number: answer::number(&answer),
            value: answer::value(answer),
        }
    }
}

impl From<Answer<Report>> for NumberedReport {
    ghost from_gives = { λ answer it. (it.number, it.examined, it.dropped) ≡ report_seen answer };

    fn from(answer: Answer<Report>) -> NumberedReport {
        let number = answer::number(&answer);
        let report = cache::reported(answer);
        NumberedReport {
            number,
            examined: report.examined,
            dropped: report.dropped,
        }
    }
}

// Decodes a word into the lent op record.
#[unsafe(no_mangle)]
pub extern "C" fn uv_decode_word(reading: u64, raw: u32, lent: &mut [u8]) -> u64
    ensures { (result, lent.new) ≡ seen answer_number (word_call reading raw lent.old) }
{
    answer::number(&decode::decode_word(reading, raw, lent))
}

// Decodes a halfword into the lent op record.
#[unsafe(no_mangle)]
pub extern "C" fn uv_decode_halfword(reading: u64, raw: u16, lent: &mut [u8]) -> u64
    ensures { (result, lent.new) ≡ seen answer_number (half_call reading raw lent.old) }
{
    answer::number(&decode::decode_halfword(reading, raw, lent))
}

// Computes an ALU kind, given by its number; the value is the result.
#[unsafe(no_mangle)]
pub extern "C" fn uv_alu(kind: u64, lhs: u64, rhs: u64) -> Numbered
    ensures { (result.number, result.value) ≡ both answer_number answer_value (alu_call kind lhs rhs) }
{
    alu::alu_call(kind, lhs, rhs).into()
}

// Forms the block at an address of guest memory into the lent block record.
#[unsafe(no_mangle)]
pub extern "C" fn uv_form(
    reading: u64,
    memory: &[u8],
    base: u64,
    address: u64,
    lent: &mut [u8],
) -> u64
    ensures { (result, lent.new) ≡ seen answer_number (form_call reading memory.now base address lent.old) }
{
    answer::number(&form::form(reading, memory, base, address, lent))
}

// Makes a new store of the lent bytes.
#[unsafe(no_mangle)]
pub extern "C" fn uv_make(store: &mut [u8], reading: u64, e: u64, base: u64, pages: u64) -> u64
    ensures { (result, store.new) ≡ seen answer_number (make_call reading e base pages store.old) }
{
    answer::number(&cache::make(store, reading, e, base, pages))
}

// Looks a block up; the value is where in the store its record begins.
#[unsafe(no_mangle)]
pub extern "C" fn uv_lookup(store: &[u8], address: u64) -> Numbered
    ensures { (result.number, result.value) ≡ both answer_number lookup_value (lookup_call store.now address) }
{
    let answer = cache::find(store, address);
    Numbered {
        number: answer::number(&answer),
        value: cache::value(answer),
    }
}

// Inserts the block record into the place of its address's slot.
#[unsafe(no_mangle)]
pub extern "C" fn uv_insert(store: &mut [u8], address: u64, lent: &[u8]) -> u64
    ensures { (result, store.new) ≡ seen answer_number (insert_call store.old address lent.now) }
{
    answer::number(&cache::insert(store, address, lent))
}

// Notices a write that was done at the address.
#[unsafe(no_mangle)]
pub extern "C" fn uv_notice(store: &mut [u8], address: u64) -> NumberedReport
    ensures { ((result.number, result.examined, result.dropped), store.new) ≡ seen report_seen (notice_call store.old address) }
{
    cache::notice(store, address).into()
}

// Notices writes that were done at the addresses of the list.
#[unsafe(no_mangle)]
pub extern "C" fn uv_notices(store: &mut [u8], addresses: &[u64]) -> NumberedReport
    ensures { ((result.number, result.examined, result.dropped), store.new) ≡ seen report_seen (notices_call store.old addresses.now) }
{
    notices::notices(store, addresses).into()
}

// Empties the cache.
#[unsafe(no_mangle)]
pub extern "C" fn uv_flush(store: &mut [u8]) -> u64
    ensures { (result, store.new) ≡ seen answer_number (flush_call store.old) }
{
    answer::number(&cache::flush(store))
}

// The value is the store's generation.
#[unsafe(no_mangle)]
pub extern "C" fn uv_generation(store: &[u8]) -> Numbered
    ensures { (result.number, result.value) ≡ both answer_number answer_value (generation_call store.now) }
{
    cache::generation(store).into()
}

// Writes the low bytes of the value to guest memory, with a notice for each page touched.
#[unsafe(no_mangle)]
pub extern "C" fn uv_guest_write(
    store: &mut [u8],
    memory: &mut [u8],
    address: u64,
    size: u64,
    value: u64,
) -> NumberedReport
    ensures { ((result.number, result.examined, result.dropped), store.new, memory.new) ≡ seen_with_two report_seen (write_call store.old memory.old address size value) }
{
    write::guest_write(store, memory, address, size, value).into()
}
