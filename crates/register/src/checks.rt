// What the register refuses before it calls the routine.
ghost use Rattle.std.specs.Prelude.{◌≡◌};
ghost use Rattle.numbers.specs.Refused.{tested, number_of};
ghost use Rattle.register.specs.Checks.{name_checks, spelled_checks};

use face::refused_key;
use numbers::{Refusal, require};
use searchfile::{Answer, Session};

// "all unchanged", no transfers. Each call returns it from an `if let`: one function that takes the rest of the call as a closure is no plainer.
pub fn refused(session: Session, refusal: Refusal) -> Answer
    ensures { result ≡ record { number = number_of refusal; transfers = 0; session = session } }
{
    Answer {
        number: u32::from(refusal),
        transfers: 0,
        session,
    }
}

// What refuses a call on a name: where a record has no data word, and the routine's refusals of the sizes, the session and the key.
pub fn refused_name(
    session: Session,
    file: usize,
    buffer: usize,
    work: &[u32],
) -> Result<(), Refusal>
    ensures { tested result ≡ name_checks session.desc session.opened file buffer work.now }
{
    let p = session.desc;
    require(p.k < p.wpr, Refusal::WrongSize)?;
    refused_key(p, session.opened, file, buffer, work, p.k)
}

// The same where a spelling is given. Its words are tested here: UPDAT would find them wrong only after the lookup.
pub fn refused_spelled(
    session: Session,
    file: usize,
    buffer: usize,
    work: &[u32],
    spelling: &[u32],
) -> Result<(), Refusal>
    ensures { tested result ≡ spelled_checks session.desc session.opened file buffer work.now spelling.now }
{
    let p = session.desc;
    let size = p.wpr.saturating_sub(p.k).saturating_sub(1);
    require(spelling.len() == size, Refusal::WrongSize)?;
    refused_name(session, file, buffer, work)?;
    let good = words::all_words(spelling, 0, spelling.len());
    require(good, Refusal::WrongKey)
}
