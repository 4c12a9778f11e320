ghost use Rattle.std.specs.Prelude.{◌≡◌, ℕ, ◌≤◌, List, length, slice_index};
ghost use Rattle.rv32i.specs.Decoded.{decoded};
ghost use Rattle.refusal.specs.Told.{told_in};
ghost use Rattle.code_check.specs.Verdicts.{passed, verdict, checked};
ghost use Rattle.code_check.specs.Laws.{Judged, Meant, Gives};
ghost use Rattle.code_check.specs.Examples.{Examples};

use crate::rules::lowest_broken;
use crate::sites::Site;
use crate::windows::window;
use refusal::{Refusal, Rule};
use rv32i::decode;

fn check_word(word: u32, site: Site) -> Result<(), Refusal>
    ensures { told_in result ≡ passed site.words site.place (decoded site.next) (decoded word) }
{
    let place = site.place;
    let instruction = decode(word).map_err(|cause| Refusal::RuleBroken {
        place,
        rule: Rule::Decodes,
        cause: Some(cause),
    })?;
    match lowest_broken(instruction, site) {
        Some(rule) => Err(Refusal::RuleBroken {
            place,
            rule,
            cause: None,
        }),
        None => Ok(()),
    }
}

// The word at `place`; past the window stands 0, which is not RV32I.
fn word_at(window: &[u32], place: usize) -> u32
    ensures { result ≡ slice_index window.now place }
{
    window.get(place).copied().unwrap_or(0)
}

// The first word that breaks a rule decides.
fn check_words(window: &[u32]) -> Result<(), Refusal>
    requires { length window.now ≤ 4096 }
    ensures { told_in result ≡ verdict window.now }
{
    for (place, word) in window.iter().enumerate() {
        let site = Site {
            words: window.len(),
            place,
            next: word_at(window, place + 1),
        };
        check_word(*word, site)?;
    }
    Ok(())
}

// Whether the window of 2^m bytes from `base` may be run: every word of it keeps every rule.
pub fn check(store: &[u32], base: u32, m: u32) -> Result<(), Refusal>
    ensures is { told_in result ≡ checked store.now base m }
    ensures judged { Judged store.now base m (told_in result) }
    ensures meant { (ws : List ℕ) → Meant ws }
    ensures gives { Gives store.now base m (told_in result) }
    ensures examples { Examples }
{
    check_window(store, base, m)
}

fn check_window(store: &[u32], base: u32, m: u32) -> Result<(), Refusal>
    ensures { told_in result ≡ checked store.now base m }
{
    check_words(window(store, base, m)?)
}
