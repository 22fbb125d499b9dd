// The one place where a function's answer meets the recorded one. Both are bytes as a record has
// them, so one comparison serves every type of answer, and no fault in how inputs are decoded can
// hide a difference.
ghost use Rattle.std.specs.Prelude.{◌≡◌, true, option_map};
ghost use Rattle.replay.specs.Agrees.{Agrees};

pub fn agrees(recorded: &[u8], answer: Option<&[u8]>) -> bool
    ensures sound { result ≡ true → Agrees recorded.now (option_map (λ given. given.now) answer.entry) }
    ensures complete { Agrees recorded.now (option_map (λ given. given.now) answer.entry) → result ≡ true }
{
    match answer {
        Some(given) => recorded == given,
        None => false,
    }
}
