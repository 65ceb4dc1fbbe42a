// Numbers and bytes as text, behind what a line holds.
ghost use Rattle.std.specs.Prelude.{◌≡◌, ◌≤◌};
ghost use Rattle.line.specs.Text.{decimal, word, hex_digit, hex_text};
ghost use Rattle.line.specs.Put.{HasRoom, IsPut};

use crate::Line;

#[tactic(auto, unfolding(crate::specs::Text::hex_digit))]
fn hex_digit(d: u8) -> u8
    requires { d ≤ 15 }
    ensures { result ≡ hex_digit d }
{
    if d < 10 { b'0' + d } else { b'a' + (d - 10) }
}

impl Line {
    pub(crate) fn put(&mut self, text: &[u8])
        requires { HasRoom self.old text.now }
        ensures { IsPut self.old text.now self.new }
    {
        let end = self.count + text.len();
        self.bytes[self.count..end].copy_from_slice(text);
        self.count = end;
    }

    // A number: its last digit behind the others. Not by `write!`, which may answer an error: a line that has room is never given up.
    pub(crate) fn put_decimal(&mut self, n: u64)
        requires { HasRoom self.old (decimal n) }
        ensures { IsPut self.old (decimal n) self.new }
    {
        if 9 < n {
            self.put_decimal(n / 10);
        }
        self.put(&[b'0' + (n % 10) as u8]);
    }

    // A number behind a space.
    pub(crate) fn put_word(&mut self, n: u64)
        requires { HasRoom self.old (word n) }
        ensures { IsPut self.old (word n) self.new }
    {
        self.put(b" ");
        self.put_decimal(n);
    }

    // Bytes, two digits each, or a dash where there are none.
    pub(crate) fn put_hex(&mut self, bytes: &[u8])
        requires { HasRoom self.old (hex_text bytes.now) }
        ensures { IsPut self.old (hex_text bytes.now) self.new }
    {
        if bytes.is_empty() {
            self.put(b"-");
            return;
        }
        for b in bytes {
            self.put(&[hex_digit(b / 16), hex_digit(b % 16)]);
        }
    }
}
