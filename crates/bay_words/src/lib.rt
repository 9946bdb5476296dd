// An answer in the words of include/bay.h, as every function there gives it: 0 and what the call gives, or the number and the place of its refusal.
#![tactic(auto)]

ghost use Rattle.std.specs.Prelude.{◌≡◌, ◌≤◌, ◌<◌};
ghost use Rattle.refusal.specs.Numbers.{number_of};
ghost use Rattle.bay_words.specs.Words.{flag_word, words_of, Answered};

use refusal::Refusal;

pub fn number_of(x: Refusal) -> u64
    ensures { result ≡ number_of x.reason }
{
    u64::from(u8::from(x.reason))
}

pub fn flag_word(flag: bool) -> u64
    ensures { result ≡ flag_word flag }
{
    u64::from(flag)
}

// What the call gives, or its refusal, with 0 in every further word.
pub fn words_of<const N: usize>(given: Result<[u64; N], Refusal>) -> [u64; N]
    requires { 2 ≤ N }
    ensures { result ≡ words_of N given.entry }
{
    match given {
        Ok(words) => words,
        Err(x) => {
            let mut words = [0; N];
            words[0] = number_of(x);
            words[1] = x.place as u64;
            words
        }
    }
}

// The words of an answer, stored; the first of them is the result.
pub fn store<const N: usize>(words: [u64; N], answer: &mut [u64; N]) -> u64
    requires { 0 < N }
    ensures { Answered words.entry answer.new result }
{
    *answer = words;
    words[0]
}

// What the call gives or its refusal, stored.
pub fn answer<const N: usize>(given: Result<[u64; N], Refusal>, answer: &mut [u64; N]) -> u64
    requires { 2 ≤ N }
    ensures { Answered (words_of N given.entry) answer.new result }
{
    store(words_of(given), answer)
}
