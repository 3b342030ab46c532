// The text of what the region program prints, in ASCII: document 01, 'The region program'. No public function has a `requires`.
//
// A text is written from the end of a lent buffer to its front, since a number's last digit comes first; the answer is where
// it starts. It is no `Display` with `write!`: that writes from front to back, and the clauses `text_after` say which bytes
// stand in the lent buffer.
#![tactic(auto)]

ghost use Rattle.std.specs.Prelude.{◌≡◌, ◌+◌, ◌≤◌, [], length, drop, take};
ghost use Rattle.genome.specs.Refusals.{number_of};
ghost use Rattle.region_text.specs.Text.{decimal, number_onto, line_text, refusal_text, refused_word};
ghost use Rattle.region_text.specs.Writing.{Wrote, byte_onto};

mod line;

use activity_profile::ActivityProfileRegion;
use genome::Refusal;
use line::Line;

// Room for the text of a line: five numbers of at most 20 digits, a blank or the line feed after each.
pub const TEXT: usize = 105;

// The most digits of a 64-bit number.
pub const DIGITS: usize = 20;

const BLANK: u8 = b' ';

const LINE_FEED: u8 = b'\n';

// The line of a region: the buffer's bytes from the answer on. Those before it keep theirs.
pub fn line_text(region: ActivityProfileRegion, text: &mut [u8; TEXT]) -> usize
    ensures text_after { drop result text.new ≡ line_text region }
    ensures text_unchanged { take result text.new ≡ take result text.old }
    ensures upper_bound { result ≤ 105 }
{
    let mut line = Line { text, at: TEXT };
    line.number(LINE_FEED, u64::from(region.padded_end));
    line.number(BLANK, u64::from(region.padded_start));
    line.number(BLANK, u64::from(region.is_active));
    line.number(BLANK, u64::from(region.end));
    line.number(BLANK, u64::from(region.start));
    line.at
}

// The line of a refusal and the index of the word that it names.
pub fn refusal_text(why: Refusal, index: u64, text: &mut [u8; TEXT]) -> usize
    ensures text_after { drop result text.new ≡ refusal_text (number_of why) index }
    ensures text_unchanged { take result text.new ≡ take result text.old }
    ensures upper_bound { result ≤ 105 }
{
    let mut line = Line { text, at: TEXT };
    line.number(LINE_FEED, index);
    line.number(BLANK, u64::from(why.number()));
    line.refused();
    line.at
}

// A number in decimal: the buffer's bytes from the answer on. Those before it keep theirs.
pub fn decimal_text(n: u64, text: &mut [u8; DIGITS]) -> usize
    ensures text_after { drop result text.new ≡ decimal n [] }
    ensures text_unchanged { take result text.new ≡ take result text.old }
    ensures upper_bound { result ≤ 20 }
{
    let mut line = Line { text, at: DIGITS };
    line.digits(n);
    line.at
}

impl<'a> Line<'a> {
    // `refused` and a blank, before the line.
    fn refused(&mut self)
        requires { 8 ≤ self.old.at }
        ensures { Wrote 8 refused_word self.old self.new }
    {
        let text = &mut *self.text;
        text[self.at - 8..self.at].copy_from_slice(b"refused ");
        self.at -= 8;
    }

    // A number in decimal and the byte after it, before the line.
    fn number(&mut self, then: u8, n: u64)
        requires { 21 ≤ self.old.at }
        ensures { Wrote 21 (number_onto n then) self.old self.new }
    {
        self.byte(then);
        self.digits(n);
    }

    // The digits of n, before the line.
    fn digits(&mut self, n: u64)
        requires { 20 ≤ self.old.at }
        ensures { Wrote 20 (decimal n) self.old self.new }
    {
        let mut rest = n;
        for _ in 0..DIGITS {
            if rest < 10 {
                return self.byte(b'0' + rest as u8);
            }
            self.byte(b'0' + (rest % 10) as u8);
            rest /= 10;
        }
    }

    // One byte, before the line.
    fn byte(&mut self, b: u8)
        requires { 1 ≤ self.old.at }
        ensures { Wrote 1 (byte_onto b) self.old self.new }
    {
        self.text[self.at - 1] = b;
        self.at -= 1;
    }
}
