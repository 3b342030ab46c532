// Text behind the text in a buffer. Each function answers how many bytes are in use then; where there is no room for the
// most that a call adds, it writes nothing.
//
// The form, the buffer and its bytes in use are three arguments: a run keeps form and count in its state and is lent the
// buffer anew at each call, so that a type of them would be made and taken apart at every one; and any count is answered,
// past the end too. Why and index are two, here and in region_text, and no StreamRefusal: that stands in region_program,
// which both crates do without, and the definitions stop_text and refusal_text are of two numbers.
ghost use Rattle.std.specs.Prelude.{◌≡◌, ◌+◌, ◌≤◌, ◌<◌, leb, length};
ghost use Rattle.genome.specs.Refusals.{number_of};
ghost use Rattle.region_text.specs.Text.{line_text, refusal_text};
ghost use Rattle.region_sheet.specs.Row.{region_row};
ghost use Rattle.region_sheet.specs.Pages.{feed_where};
ghost use Rattle.region_print.specs.Forms.{region_text, end_text, stop_text};
ghost use Rattle.region_print.specs.Buffers.{Added, AddedWhereRoom, MOST as most_added};

use crate::Form;
use activity_profile::ActivityProfileRegion;
use genome::Refusal;
use region_text::TEXT;

const FORM_FEED: u8 = 12;

// The most bytes that one call adds: a form feed and a line.
const MOST: usize = 106;

// A region: its line, or its row, and the form feed behind the last row of a page.
pub fn print_region(
    region: ActivityProfileRegion,
    form: Form,
    text: &mut [u8],
    used: usize,
) -> usize
    ensures { AddedWhereRoom (region_text form region) text.old used text.new result }
{
    if !has_room(text, used) {
        return used;
    }
    match form {
        Form::Listing => line(region, text, used),
        Form::Sheet { rows } => {
            let behind = row(region, text, used);
            feed_where(region_sheet::rows_after(rows) == 0, text, behind)
        }
    }
}

// A refusal: the end of the page that is open, and the line that names it.
pub fn print_refusal(why: Refusal, index: u64, form: Form, text: &mut [u8], used: usize) -> usize
    ensures { AddedWhereRoom (stop_text form (number_of why) index) text.old used text.new result }
{
    if !has_room(text, used) {
        return used;
    }
    let behind = print_end(form, text, used);
    refusal(why, index, text, behind)
}

// The end of all regions: the form feed of the page that is open.
pub fn print_end(form: Form, text: &mut [u8], used: usize) -> usize
    ensures { AddedWhereRoom (end_text form) text.old used text.new result }
{
    if !has_room(text, used) {
        return used;
    }
    match form {
        Form::Listing => used,
        Form::Sheet { rows } => feed_where(rows != 0, text, used),
    }
}

// Whether there is room for the most that a call adds.
fn has_room(text: &[u8], used: usize) -> bool
    ensures { result ≡ leb (used + most_added) (length text.now) }
{
    text.len().saturating_sub(used) >= MOST
}

// `line` and `refusal` are two functions: one with the writing as a closure could promise no more than that the closure
// wrote some bytes and answered where they start, and each caller would have to prove of them what is promised here.
fn line(region: ActivityProfileRegion, text: &mut [u8], used: usize) -> usize
    requires { used + 105 ≤ length text.old }
    ensures added { Added (line_text region) text.old used text.new result }
    ensures upper_bound { result ≤ used + 105 }
{
    let mut bytes = [0u8; TEXT];
    let at = region_text::line_text(region, &mut bytes);
    append(text, used, &bytes[at..])
}

fn refusal(why: Refusal, index: u64, text: &mut [u8], used: usize) -> usize
    requires { used + 105 ≤ length text.old }
    ensures added { Added (refusal_text (number_of why) index) text.old used text.new result }
    ensures upper_bound { result ≤ used + 105 }
{
    let mut bytes = [0u8; TEXT];
    let at = region_text::refusal_text(why, index, &mut bytes);
    append(text, used, &bytes[at..])
}

fn row(region: ActivityProfileRegion, text: &mut [u8], used: usize) -> usize
    requires { used + 46 ≤ length text.old }
    ensures added { Added (region_row region) text.old used text.new result }
    ensures value { result ≡ used + 46 }
{
    let bytes = region_sheet::row_text(
        region.start,
        region.end,
        region.is_active,
        region.padded_start,
        region.padded_end,
    );
    append(text, used, &bytes)
}

fn append(text: &mut [u8], used: usize, piece: &[u8]) -> usize
    requires { used + length piece.now ≤ length text.old }
    ensures { Added piece.now text.old used text.new result }
{
    let end = used + piece.len();
    text[used..end].copy_from_slice(piece);
    end
}

// A form feed, where it is asked for.
fn feed_where(ends: bool, text: &mut [u8], used: usize) -> usize
    requires { used < length text.old }
    ensures added { Added (feed_where ends) text.old used text.new result }
    ensures upper_bound { result ≤ used + 1 }
{
    if ends {
        text[used] = FORM_FEED;
        return used + 1;
    }
    used
}
