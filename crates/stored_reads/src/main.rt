// Stored answers of GEM's Rust: each read set of the file is searched anew, and held to the stored rounds and places, or to the stored
// refusal. The file comes on standard input; host/README.md says its form, and `make_answers` of host/ makes it.
#![tactic(auto)]

ghost use Rattle.std.specs.Prelude.{◌^◌, ◌≤◌, ◌<◌, length, IfSome};

use plan_record::places::word_at;
use std::io;
use words::edition::Edition;
use words::found::all_below;

// Fills `words` with those of the file from word `at` on.
fn load(file: &[u8], at: usize, words: &mut [u32])
    requires { at < 2 ^ 50 }
{
    for (i, word) in words.iter_mut().enumerate() {
        *word = word_at(file, at + i);
    }
}

// How many places of a read section read something.
// stays: a loop, since an iterator's filter and count look at one word at a time, and took a third more of all the program's time.
fn reads(section: &[u32]) -> usize {
    let mut found = 0;
    for i in 0..section.len() {
        if section[i] != 0 {
            found += 1;
        }
    }
    found
}

// Whether a place of the section, 32·lane + round, has this word and mask.
fn stands(section: &[u32], place: u32, word: u32, mask: u32) -> bool {
    let at = 512 * (place as usize % 32) + place as usize / 32 * 2;
    at + 1 < section.len() && section[at] == word && section[at + 1] == mask
}

// Whether each pair of the set stands at its stored place; the places are the file's words from `at` on.
fn all_stand(file: &[u8], at: usize, set: &[u32], section: &[u32]) -> bool
    requires { at < 2 ^ 50 }
{
    all_below(set.len() / 2, |p| {
        stands(section, word_at(file, at + p), set[2 * p], set[2 * p + 1])
    })
}

// Whether a set gets what the file says from word `at` on: rounds and places, or 0 and the refusal's number.
fn agrees(file: &[u8], at: usize, set: &[u32]) -> bool
    requires { at < 2 ^ 49 }
{
    let mut room = [0u32; 16384];
    let mut section = [0u32; 16384];
    let stored = word_at(file, at);
    let edition = Edition::LANES as u32;
    match rounds::map_global_read_to_rounds(set, &mut room, &mut section, edition) {
        Ok(placed) => {
            placed.rounds == stored
                && all_stand(file, at + 1, set, &section)
                && reads(&section) == reads(set)
        }
        Err(refusal) => stored == 0 && refusal.number == word_at(file, at + 1),
    }
}

// The words of the case at word `at`, where our answer agrees. The set goes into `room`.
fn case_words(file: &[u8], at: usize, room: &mut [u32]) -> Option<usize>
    requires { (at < 2 ^ 48) × (16384 ≤ length room.old) }
    ensures { IfSome result (λ n. n ≤ 32768) }
{
    let n = word_at(file, at) as usize;
    if 8192 < n {
        return None;
    }
    let words = 2 * n;
    load(file, at + 1, &mut room[..words]);
    if !agrees(file, at + 1 + words, &room[..words]) {
        return None;
    }
    let refused = word_at(file, at + 1 + words) == 0;
    Some(if refused { words + 3 } else { words + 2 + n })
}

// How many cases agree before the first that differs, of those that the file says it has.
fn agreeing(file: &[u8], cases: u32) -> u32 {
    let mut room = [0u32; 16384];
    let mut at: usize = 1;
    for i in 0..cases {
        let Some(words) = case_words(file, at, &mut room) else {
            return i;
        };
        at += words;
    }
    cases
}

// Says how many cases the file has and how many agree.
fn tell(rt: &impl Print, file: &[u8]) -> io::Result<()> {
    let cases = word_at(file, 0);
    let agree = agreeing(file, cases);
    println!(rt; "cases {cases}\nagree {agree}")
}

// Place for the file. A function's result is an array that the prover does not compute.
fn place() -> [u8; 524288] {
    [0u8; 524288]
}

fn main(rt: HostRuntime) -> io::Result<()> {
    let mut file = place();
    let length = input::read_full(rt.reader(), &mut file)?;
    tell(&rt, &file[..length])
}
