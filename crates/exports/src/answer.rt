// An answer as three plain words: 0 and the values, or the refusal's number and place.
ghost use Rattle.std.specs.Prelude.{◌≡◌, ℕ, List, [], ◌∷◌, length, get_or};
ghost use Rattle.model.specs.Exports.{answer_words, number_of};
ghost use Rattle.model.specs.Sizes.{answer_width};
ghost use Rattle.ids.specs.Refusals.{answer_by};

use ids::refusal::Refusal;

// answer_width
pub(crate) const ANSWER_WORDS: usize = 3;

type Words = [u64; ANSWER_WORDS];

// What an accepted answer tells: two words.
pub(crate) trait Values: Drop {
    ghost values: { Self → List ℕ };

    fn told(&self) -> [u64; 2]
        ensures { result ≡ get_or (values self.now) 0 0 ∷ get_or (values self.now) 1 0 ∷ [] };
}

// The answer is opened by `let .. else`, as 01 says of the exported layer.
#[tactic(auto, unfolding(model::specs::Exports::answer_words, model::specs::Exports::number_of))]
fn words<A: Values>(given: Result<A, Refusal>) -> Words
    ensures number { get_or result 0 0 ≡ number_of (answer_by A.values given) }
    ensures words { result ≡ answer_words (answer_by A.values given) }
{
    let Ok(values) = given else {
        let Err(Refusal { reason, place }) = given else {
            unreachable!();
        };
        return [reason.number(), place as u64, 0];
    };
    let [first, second] = values.told();
    [0, first, second]
}

// Writes the slice whole, and gives the first word.
pub(crate) fn put<A: Values>(given: Result<A, Refusal>, answer: &mut [u64]) -> u64
    requires { length answer.old ≡ answer_width }
    ensures number { result ≡ number_of (answer_by A.values given) }
    ensures words { answer.new ≡ answer_words (answer_by A.values given) }
{
    let words = words(given);
    answer.copy_from_slice(&words);
    words[0]
}
