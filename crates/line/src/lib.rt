// The line of one step of a play, in a lent buffer.
#![tactic(auto)]

ghost use Rattle.std.specs.Prelude.{◌≡◌, cond, [], eqb, ◌+◌, ◌≤◌, length};
ghost use Rattle.line.specs.Put.{HasRoom, IsPut};
ghost use Rattle.line.specs.Line.{who_text, page_text, is_append, sent_text, end_text, line_of, IsLinePut};

use client::{Outcome, Page, Work};

mod text;

// A line as far as it is put: `count` bytes at the front.
#[derive(Clone, Copy)]
pub struct Line {
    bytes: [u8; Line::ROOM],
    count: usize,
}

fn is_append(work: Work) -> bool
    ensures { result ≡ is_append work }
{
    matches!(work, Work::Append)
}

impl Line {
    // No line is longer.
    pub const ROOM: usize = 256;

    // Who ended, and with which number.
    fn put_who(&mut self, who: u8, number: u8)
        requires { HasRoom self.old (who_text who number) }
        ensures { IsPut self.old (who_text who number) self.new }
    {
        self.put(b" :");
        self.put_word(u64::from(who));
        self.put_word(u64::from(number));
    }

    // The page that was shown. A length past its bytes counts no more than there are.
    fn put_page(&mut self, page: Page)
        requires { HasRoom self.old (page_text page) }
        ensures { IsPut self.old (page_text page) self.new }
    {
        let n = usize::from(page.len).min(Page::ROOM);
        self.put_word(u64::from(page.kind));
        self.put(b" ");
        self.put_hex(&page.bytes[..n]);
    }

    // How many requests an append sent; of the others nothing is said.
    fn put_sent(&mut self, work: Work, sent: u32)
        requires { HasRoom self.old (sent_text work sent) }
        ensures { IsPut self.old (sent_text work sent) self.new }
    {
        if is_append(work) {
            self.put(b" sent");
            self.put_word(u64::from(sent));
        }
    }

    // Who ended, and how.
    fn put_end(&mut self, who: u8, outcome: Outcome)
        requires { HasRoom self.old (end_text who outcome) }
        ensures { IsPut self.old (end_text who outcome) self.new }
    {
        self.put_who(who, outcome.number);
        self.put_word(outcome.position.0);
        self.put_word(u64::from(outcome.epoch.0));
        self.put_page(outcome.page);
        self.put_sent(outcome.work, outcome.sent);
    }

    // Nothing where nobody ended.
    fn put_if_ended(&mut self, who: u8, outcome: Outcome)
        requires { HasRoom self.old (cond (eqb who 0) [] (end_text who outcome)) }
        ensures { IsPut self.old (cond (eqb who 0) [] (end_text who outcome)) self.new }
    {
        if who != 0 {
            self.put_end(who, outcome);
        }
    }

    // The whole line.
    fn put_all(&mut self, number: u32, answer: u8, who: u8, outcome: Outcome)
        requires { HasRoom self.old (line_of number answer who outcome) }
        ensures { IsPut self.old (line_of number answer who outcome) self.new }
    {
        self.put_decimal(u64::from(number));
        self.put_word(u64::from(answer));
        self.put_if_ended(who, outcome);
        self.put(b"\n");
    }
}

// Writes the line of step `number` at `at`, and gives its length; `who` ended with `outcome`, nobody where it is 0.
// Where the line has no room, nothing is written.
pub fn put_line(
    out: &mut [u8],
    at: usize,
    number: u32,
    answer: u8,
    who: u8,
    outcome: Outcome,
) -> Option<usize>
    ensures { IsLinePut out.old at number answer who outcome result out.new }
{
    let mut line = Line {
        bytes: [0; Line::ROOM],
        count: 0,
    };
    line.put_all(number, answer, who, outcome);
    let n = line.count;
    let end = at.checked_add(n)?;
    if out.len() < end {
        return None;
    }
    out[at..end].copy_from_slice(&line.bytes[..n]);
    Some(n)
}
