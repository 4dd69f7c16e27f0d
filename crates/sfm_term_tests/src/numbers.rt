// Numbers in the text of a table, in which blanks stand between them.
use sfm_base::read_number;
use sfm_trial::NO;
use std::alloc::Global;

/// The number of a word, or nothing where it is none.
fn number_of(word: &str) -> Option<i128> {
    if word == "no" {
        return Some(NO);
    }
    read_number(word.as_bytes())
}

/// Puts the numbers of a text behind others, and says whether each word is one, and there is memory.
fn put_numbers(numbers: &mut Vec<i128>, text: &str) -> bool {
    for word in text.split_whitespace() {
        let Some(number) = number_of(word) else {
            return false;
        };
        if numbers.push(number).is_err() {
            return false;
        }
    }
    true
}

/// The numbers of a text, or nothing where a word is none, or memory lacks.
pub(crate) fn numbers_of(alloc: Global, text: &str) -> Option<Vec<i128>> {
    let mut numbers = Vec::new(alloc);
    if put_numbers(&mut numbers, text) {
        Some(numbers)
    } else {
        None
    }
}

/// The number of that place, as that of a place or of a part; where there is none, or it is too large, one that no place has.
pub(crate) fn count_at(numbers: &[i128], i: usize) -> usize {
    if i < numbers.len() && 0 <= numbers[i] && numbers[i] < 65_536 {
        numbers[i] as usize
    } else {
        usize::MAX
    }
}
