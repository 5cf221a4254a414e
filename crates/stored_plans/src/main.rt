// Builds stored plans and holds each to the script that GEM's Rust built: every start, word and size, or the refusal with its place. The file
// comes on standard input; host/README.md says its form, and `make_answers plans` of host/ makes it.
#![tactic(auto)]

ghost use Rattle.std.specs.Prelude.{◌≡◌, true, ◌+◌, ◌<◌, ◌^◌, take};
ghost use Rattle.stored_lists.specs.Stored.{list_at, Halves, RefusalAt, SizesAt, ListsAt};

use flatten::build_flattened_script_v1;
use flatten::sizes::Sizes;
use plan_record::places::word_at;
use std::io;
use stored_lists::list::{expand, list_words, put_words};
use stored_lists::same::{same_halves, same_words};
use words::refusals::Refusal;

// Whether a refusal is the one at word `at`: number, part, item.
fn refusal_agrees(file: &[u8], at: usize, refusal: Refusal) -> bool
    requires { at < 2 ^ 63 }
    ensures { result ≡ true → RefusalAt file.now at refusal.number refusal.part refusal.item }
{
    refusal.number == word_at(file, at)
        && refusal.part == word_at(file, at + 1)
        && refusal.item == word_at(file, at + 2) as u64
}

// Whether the sizes are those from word `at` on.
fn sizes_agree(file: &[u8], at: usize, sizes: Sizes) -> bool
    requires { at < 2 ^ 63 }
    ensures { result ≡ true → SizesAt file.now at sizes.starts sizes.words sizes.state sizes.sram }
{
    sizes.starts == word_at(file, at) as u64
        && sizes.words == word_at(file, at + 1) as u64
        && sizes.state == word_at(file, at + 2) as u64
        && sizes.sram == word_at(file, at + 3) as u64
}

// Whether the starts are those of the list at word `at`. The list goes into `list`.
fn starts_agree(file: &[u8], at: usize, starts: &[u64], list: &mut [u32]) -> bool
    requires { at < 2 ^ 63 }
    ensures { result ≡ true → Halves starts.now (list_at file.now at) }
{
    match expand(file, at, list) {
        Some(n) => same_halves(starts, &list[..n]),
        None => false,
    }
}

// Whether the words are those of the list at word `at`. The list goes into `list`.
fn words_agree(file: &[u8], at: usize, words: &[u32], list: &mut [u32]) -> bool
    requires { at < 2 ^ 63 }
    ensures { result ≡ true → words.now ≡ list_at file.now at }
{
    match expand(file, at, list) {
        Some(n) => same_words(words, &list[..n]),
        None => false,
    }
}

// Whether a script is the stored one: sizes, starts and words from word `at` on.
fn script_agrees(
    file: &[u8],
    at: usize,
    sizes: Sizes,
    starts: &[u64],
    words: &[u32],
    list: &mut [u32],
) -> bool
    requires { at < 2 ^ 62 }
    ensures { result ≡ true → SizesAt file.now at sizes.starts sizes.words sizes.state sizes.sram × ListsAt file.now (at + 4) (take sizes.starts starts.now) (take sizes.words words.now) }
{
    if !sizes_agree(file, at, sizes)
        || (starts.len() as u64) < sizes.starts
        || (words.len() as u64) < sizes.words
    {
        return false;
    }
    if !starts_agree(file, at + 4, &starts[..sizes.starts as usize], list) {
        return false;
    }
    words_agree(
        file,
        at + 4 + list_words(file, at + 4),
        &words[..sizes.words as usize],
        list,
    )
}

// Whether a plan gives what the file says from word `at` on: 0 and a script, or a refusal. The file has no piece sizes; no stored plan has more than
// 64 parts.
fn agrees(
    file: &[u8],
    at: usize,
    plan: &[u8],
    room: &mut [u32],
    starts: &mut [u64],
    words: &mut [u32],
    list: &mut [u32],
) -> bool
    requires { at < 2 ^ 61 }
{
    let mut pieces = [0u32; 64];
    match build_flattened_script_v1(plan, room, starts, words, &mut pieces) {
        Ok(sizes) => {
            word_at(file, at) == 0 && script_agrees(file, at + 1, sizes, starts, words, list)
        }
        Err(refusal) => refusal_agrees(file, at, refusal),
    }
}

// Whether the case at word `at` agrees. The plan goes into `list`, then as bytes into `plan`.
fn case_agrees(
    file: &[u8],
    at: usize,
    list: &mut [u32],
    plan: &mut [u8],
    room: &mut [u32],
    starts: &mut [u64],
    words: &mut [u32],
) -> bool
    requires { at < 2 ^ 60 }
{
    let Some(n) = expand(file, at, list) else {
        return false;
    };
    if plan.len() / 4 < n {
        return false;
    }
    let bytes = 4 * n;
    put_words(list, n, plan);
    agrees(
        file,
        at + list_words(file, at),
        &plan[..bytes],
        room,
        starts,
        words,
        list,
    )
}

// The words of the answer at word `at`: a refusal and its place, or 0, four sizes and two lists.
fn answer_words(file: &[u8], at: usize) -> usize
    requires { at < 2 ^ 61 }
    ensures { result < 2 ^ 35 }
{
    if word_at(file, at) != 0 {
        return 3;
    }
    let starts = list_words(file, at + 5);
    5 + starts + list_words(file, at + 5 + starts)
}

// The words of the case at word `at`.
fn case_words(file: &[u8], at: usize) -> usize
    requires { at < 2 ^ 60 }
    ensures { result < 2 ^ 36 }
{
    let plan = list_words(file, at);
    plan + answer_words(file, at + plan)
}

// How many cases agree before the first that differs, of those that the file says it has.
fn agreeing(
    file: &[u8],
    cases: u32,
    list: &mut [u32],
    plan: &mut [u8],
    room: &mut [u32],
    starts: &mut [u64],
    words: &mut [u32],
) -> u32 {
    let mut at: usize = 1;
    for i in 0..cases {
        if 0x1000_0000 < at || !case_agrees(file, at, list, plan, room, starts, words) {
            return i;
        }
        at += case_words(file, at);
    }
    cases
}

// Says how many plans the file has and how many agree.
fn tell(
    rt: &impl Print,
    file: &[u8],
    list: &mut [u32],
    plan: &mut [u8],
    room: &mut [u32],
    starts: &mut [u64],
    words: &mut [u32],
) -> io::Result<()> {
    let cases = word_at(file, 0);
    let agree = agreeing(file, cases, list, plan, room, starts, words);
    println!(rt; "{cases} plans, {agree} agree")
}

// Places for the file, a list, a plan, the working room and a script. A function's result is an array that the prover does not compute.
fn file_place() -> [u8; 262144] {
    [0u8; 262144]
}

fn list_place() -> [u32; 120000] {
    [0u32; 120000]
}

fn plan_place() -> [u8; 480000] {
    [0u8; 480000]
}

fn room_place() -> [u32; 65664] {
    [0u32; 65664]
}

fn words_place() -> [u32; 65536] {
    [0u32; 65536]
}

fn main(rt: HostRuntime) -> io::Result<()> {
    let mut file = file_place();
    let mut list = list_place();
    let mut plan = plan_place();
    let mut room = room_place();
    let mut starts = [0u64; 64];
    let mut words = words_place();
    let length = input::read_full(rt.reader(), &mut file)?;
    tell(
        &rt,
        &file[..length],
        &mut list,
        &mut plan,
        &mut room,
        &mut starts,
        &mut words,
    )
}
