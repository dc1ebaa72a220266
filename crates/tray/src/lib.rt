// A tray of records put in by one call: NSERT of each, by its promise alone, up to the first that is not stored. Each record is lent to NSERT
// where it lies in the tray; nothing is copied, and no workspace is needed.
#![tactic(auto)]

ghost use Rattle.std.specs.Prelude.{◌≡◌, true, [], ◌+◌, ◌*◌, length};
ghost use Rattle.numbers.specs.Numbers.{done};
ghost use Rattle.numbers.specs.Refused.{tested};
ghost use Rattle.drum.specs.Params.{good_params};
ghost use Rattle.searchfile.specs.Promise.{given};
ghost use Rattle.tray.specs.Tray.{count_of, matches, records_of, inserts, tray_checks, nsert_tray};
ghost use Rattle.tray.specs.Promise.{counted_tray, answered_tray};

use drum::Description;
use numbers::{DONE, Refusal, is_accepted, require};
use searchfile::Session;

// What a tray comes to: how many records were stored, the number of the last NSERT, the transfers of all, and the session to go on with.
#[derive(Clone, Copy)]
pub struct Trayed {
    pub stored: usize,
    pub number: u32,
    pub transfers: usize,
    pub session: Session,
}

// Whether the tray is as long as its first word says.
fn is_whole(p: Description, tray: &[u32]) -> bool
    requires { good_params p ≡ true }
    ensures { result ≡ matches p tray.now }
{
    !tray.is_empty() && tray.len() == 1 + words::word_at(tray, 0) * p.wpr
}

// What refuses a tray before any NSERT is made.
fn refused_tray(session: Session, file: &[u32], buffer: &[u32], tray: &[u32]) -> Result<(), Refusal>
    ensures { tested result ≡ tray_checks (given session file.now buffer.now []) tray.now }
{
    let p = session.desc;
    require(p.is_sized(file.len(), buffer.len()), Refusal::WrongSize)?;
    require(is_whole(p, tray), Refusal::WrongSize)?;
    require(session.opened, Refusal::IsClosed)
}

// NSERT of each record in turn, up to the first that is not stored. By number, not by `chunks_exact`, which asks that WPR is not 0: this promise does not.
fn insert_each(session: Session, file: &mut [u32], buffer: &mut [u32], tray: &[u32]) -> Trayed
    requires { length tray.now ≡ 1 + count_of tray.now * session.desc.wpr }
    ensures { answered_tray result file.new buffer.new
        ≡ counted_tray (inserts (given session file.old buffer.old []) (records_of session.desc tray.now) done) }
{
    let wpr = session.desc.wpr;
    let mut done = Trayed {
        stored: 0,
        number: DONE,
        transfers: 0,
        session,
    };
    for stored in 0..words::word_at(tray, 0) {
        let at = 1 + stored * wpr;
        let answer = done.session.nsert(file, buffer, &tray[at..at + wpr]);
        done.session = answer.session;
        done.number = answer.number;
        done.transfers += answer.transfers;
        if !is_accepted(answer.number) {
            break;
        }
        done.stored += 1;
    }
    done
}

// Puts in the records of a tray: word 0 says how many, then they follow.
pub fn nsert_tray(session: Session, file: &mut [u32], buffer: &mut [u32], tray: &[u32]) -> Trayed
    ensures { answered_tray result file.new buffer.new
        ≡ counted_tray (nsert_tray (given session file.old buffer.old []) tray.now) }
{
    match refused_tray(session, file, buffer, tray) {
        Ok(()) => insert_each(session, file, buffer, tray),
        Err(refusal) => Trayed {
            stored: 0,
            number: u32::from(refusal),
            transfers: 0,
            session,
        },
    }
}
