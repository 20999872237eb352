// The words of the command line that name a plan.
ghost use Rattle.std.specs.Prelude.{◌≡◌, ◌≤◌, Ok, Err, IfSome, MatchOption, codes, length, map, string_bytes};
ghost use Rattle.fl_model.specs.Record.{bytes_equal};
ghost use Rattle.fl_words.specs.Grammar as grammar;
ghost use Rattle.fl_sizing.specs.Words.{plan_named, interval_named};

/// A plan, perhaps with the seconds between two rows.
#[derive(Clone, Copy)]
pub struct PlanJob {
    /// From 1 to 1,000,000.
    pub interval: Option<u64>,
}

fn is_plan(word: &str) -> bool
    ensures { result ≡ bytes_equal word.now (codes "plan") }
{
    word == "plan"
}

/// The number that the word is. It has no sign, and `parse` takes a plus.
fn number(word: &str) -> Option<u64>
    ensures { MatchOption result (grammar.number word.now ≡ Err grammar.Number) (λ value. grammar.number word.now ≡ Ok value) }
{
    if word.as_bytes().starts_with(b"+") {
        return None;
    }
    word.parse().ok()
}

/// A plan with so many seconds between two rows.
fn plan_with(seconds: &str) -> Option<PlanJob>
    ensures { result ≡ interval_named (grammar.number seconds.now) }
{
    let seconds = number(seconds)?;
    if seconds == 0 || seconds > 1_000_000 {
        return None;
    }
    Some(PlanJob {
        interval: Some(seconds),
    })
}

/// The plan that one word names, or two.
fn plan_of_one(words: &[String]) -> Option<PlanJob>
    requires { length words.now ≡ 1 }
    ensures { result ≡ plan_named (map (λ word. string_bytes word) words.now) }
{
    is_plan(words[0].as_str()).then_some(PlanJob { interval: None })
}

fn plan_of_two(words: &[String]) -> Option<PlanJob>
    requires { length words.now ≡ 2 }
    ensures { result ≡ plan_named (map (λ word. string_bytes word) words.now) }
{
    if !is_plan(words[0].as_str()) {
        return None;
    }
    plan_with(words[1].as_str())
}

/// The plan that the words name: `plan`, and perhaps the seconds between two rows, from 1 to 1,000,000.
pub fn plan_of(words: &[String]) -> Option<PlanJob>
    ensures exact { result ≡ plan_named (map (λ word. string_bytes word) words.now) }
    ensures interval { IfSome result (λ job. IfSome job.interval (λ seconds. seconds ≤ 1000000)) }
{
    match words.len() {
        1 => plan_of_one(words),
        2 => plan_of_two(words),
        _ => None,
    }
}
