// What a line of a list does.
use super::shown::{print_lent, print_line, print_turned, told};
use rules::Call;
use searchfile::{Answer, Session};
use std::io;

// A call, or what no call does.
#[derive(Clone, Copy)]
pub enum Deed {
    Call(Call),
    View,
    Turn,
    Short,
    Form,
    FileWord,
    BufferWord,
    Current,
    Position,
    Remark,
    Unknown,
}

// A line: what its first word means, that word, and the words that follow, three at least: those that are not given are 0.
#[derive(Clone, Copy)]
pub struct Line<'a> {
    pub deed: Deed,
    pub name: &'a [u8],
    pub numbers: &'a [u32],
}

// What the calls are lent.
#[derive(Drop)]
pub struct Lent<'a> {
    pub file: &'a mut [u32],
    pub buffer: &'a mut [u32],
    pub work: &'a mut [u32],
    pub marks: &'a mut [u8],
}

fn put(words: &mut [u32], i: usize, x: u32) {
    if let Some(word) = words.get_mut(i) {
        *word = x;
    }
}

impl Lent<'_> {
    // The words of a line put into the workspace, as far as there is room.
    fn fill(&mut self, numbers: &[u32]) {
        for (word, x) in self.work.iter_mut().zip(numbers) {
            *word = *x;
        }
    }

    // A call, its key or record in the workspace.
    // Not `perform` of crate calls: that refuses a key that has no room, and a line of a list may give fewer words.
    fn call(&mut self, s: Session, call: Call) -> Answer {
        let file = &mut *self.file;
        let buffer = &mut *self.buffer;
        let work = &mut *self.work;
        let marks = &mut *self.marks;
        match call {
            Call::Create => s.create(file),
            Call::Open => s.open_file(file, buffer, marks),
            Call::Close => s.close(file, buffer),
            Call::Adv => s.adv(file, buffer, work),
            Call::Seek { .. } => s.seek(file, buffer, work),
            Call::Updat { .. } => s.updat(file, buffer, work),
            Call::Nsert { .. } => s.nsert(file, buffer, work),
            Call::Dlete { .. } => s.dlete(file, buffer, work),
            Call::Xtend { .. } => s.xtend(file, buffer, work),
        }
    }

    // A session that no call would leave, for a line that makes one up of two words.
    fn made_up(&mut self, s: Session, deed: Deed, a: u32, b: u32) -> Session {
        let mut next = s;
        match deed {
            Deed::FileWord => put(self.file, a as usize, b),
            Deed::BufferWord => put(self.buffer, a as usize, b),
            Deed::Current => {
                next.current = a as usize;
                next.flag = b == 1;
            }
            Deed::Form => next.desc = s.desc.with_form(a as usize),
            Deed::Position => {
                next.placed = a == 1;
                next.position[0] = b;
            }
            _ => {}
        }
        next
    }
}

// An answer of 0 with no transfer.
fn answered(session: Session) -> Answer {
    Answer {
        number: 0,
        transfers: 0,
        session,
    }
}

fn is_keyed(call: Call) -> bool {
    !matches!(call, Call::Create | Call::Open | Call::Close | Call::Adv)
}

// What a line that is no remark does, and what is printed on the way.
fn done(out: &impl Print, line: Line, s: Session, lent: &mut Lent) -> io::Result<Answer> {
    let (a, b) = match line.numbers {
        [a, b, ..] => (*a, *b),
        _ => (0, 0),
    };
    let answer = match line.deed {
        Deed::Call(call) => {
            if is_keyed(call) {
                lent.fill(line.numbers);
            }
            lent.call(s, call)
        }
        Deed::Short => {
            lent.fill(line.numbers);
            s.seek(lent.file, lent.buffer, &mut [])
        }
        Deed::View => {
            let file = &mut *lent.file;
            let buffer = &mut *lent.buffer;
            print_lent(out, s.view(file, buffer, a as usize))?;
            answered(s)
        }
        Deed::Turn => {
            let answer = s.turn(lent.file, lent.marks);
            print_turned(out, answer.session, lent.marks)?;
            answer
        }
        made => answered(lent.made_up(s, made, a, b)),
    };
    Ok(answer)
}

// One line: what it does, and what it leaves.
pub fn play(out: &impl Print, line: Line, s: Session, lent: &mut Lent) -> io::Result<Session> {
    match line.deed {
        Deed::Remark => Ok(s),
        Deed::Unknown => {
            print_line(out, line)?;
            Ok(s)
        }
        _ => {
            print_line(out, line)?;
            let answer = done(out, line, s, lent)?;
            told(out, answer, lent)
        }
    }
}
