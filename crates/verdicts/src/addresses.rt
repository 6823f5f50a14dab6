// The first addresses of labels, by the answers that a pool gave.
ghost use Rattle.std.specs.Prelude.{◌≡◌, map};
ghost use Rattle.laws.specs.Book.{address_in, addressed, first_address};
ghost use Rattle.calls.specs.Values.{call_of, answer_of};
ghost use Rattle.verdicts.specs.Hearing.{addresses_in};
ghost use Rattle.model.specs.Runs.{told};

use calls::{Answer, Call};

// Notes the address that a call was answered, if it was a new and was accepted.
fn note(firsts: &mut [Option<u32>; 256], call: &Call, answer: &Answer)
    ensures { addresses_in firsts.new ≡ addressed (call_of call.now) (address_in (answer_of answer.now)) (addresses_in firsts.old) }
{
    if let (Call::New(label, _), Answer::ToNew(Ok(made))) = (call, answer) {
        firsts[*label as usize] = Some(made.address);
    }
}

// The first address of each label: the one that its latest accepted new answered. Calls and answers go in pairs, as far
// as there are both.
pub fn first_addresses(calls: &[Call], answers: &[Answer]) -> [Option<u32>; 256]
    ensures { addresses_in result ≡ first_address (told (map call_of calls.now) (map answer_of answers.now)) }
{
    let mut firsts = [None; 256];
    for (call, answer) in calls.iter().zip(answers) {
        note(&mut firsts, call, answer);
    }
    firsts
}
