// Lists as the file has them: a number of runs, then a count and a word for each.
ghost use Rattle.std.specs.Prelude.{◌+◌, ◌*◌, ◌≤◌, ◌<◌, ◌^◌, ◌≡◌, length, take, IfSome};
ghost use Rattle.plan_record.specs.Record.{word_at};
ghost use Rattle.stored_lists.specs.Stored.{list_at};

use plan_record::places::word_at;

// How many words of the file the list at word `at` takes.
pub fn list_words(file: &[u8], at: usize) -> usize
    ensures { (result ≡ 1 + 2 * word_at file.now at) × (result < 2 ^ 33) }
{
    1 + 2 * (word_at(file, at) as usize)
}

// Puts the list at word `at` of the file into `words` and gives its length, where there is place for it.
pub fn expand(file: &[u8], at: usize, words: &mut [u32]) -> Option<usize>
    requires { at < 2 ^ 63 }
    ensures { IfSome result (λ n. (n ≤ length words.new) × (take n words.new ≡ list_at file.now at)) }
{
    let runs = word_at(file, at) as usize;
    let mut filled = 0;
    for i in 0..runs {
        let count = word_at(file, at + 1 + 2 * i) as usize;
        if words.len() - filled < count {
            return None;
        }
        words[filled..filled + count].fill(word_at(file, at + 2 + 2 * i));
        filled += count;
    }
    Some(filled)
}

// Puts the bytes of the first `count` words.
pub fn put_words(words: &[u32], count: usize, bytes: &mut [u8])
    requires { (count ≤ length words.now) × (4 * count ≤ length bytes.old) }
{
    for i in 0..count {
        bytes[4 * i..4 * i + 4].copy_from_slice(&words[i].to_le_bytes());
    }
}
