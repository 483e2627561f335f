//! Texts that are cut to a width, with a suffix after them.
ghost use Rattle.std.specs.Prelude.{◌≡◌, ◌++◌, IfOk, OnOk, string_bytes};
ghost use Rattle.ansi_scan.specs.StartsAndEnds.{end_bytes, start_bytes};
ghost use Rattle.tabled_size_wrap.specs.Bytes.{cut_at};
ghost use Rattle.tabled_width_texts.specs.Cutting.{cut_line, cut_text, filled_by, suffix_behind, truncating, without_room};
ghost use Rattle.tabled_width_texts.specs.Suffixes.{TakesColumns};

use crate::filling::push_repeated;
use crate::last::last_style;
use crate::lines::{LineChange, change_lines};
use crate::room::RoomChange;
use ansi_scan::Style;
use grid_config::Position;
use grid_records::Text;
use grid_records_measure::get_char_width;
use grid_records_traits::records::PeekableRecords;
use std::alloc::{AllocError, Global};
use tabled_size::SuffixLimit;
use tabled_size_wrap::cut_styled;

/// How texts are cut: the suffix that comes after them, the columns that it takes, and what is done where it does
/// not fit. The flags say whether each line is cut by itself, and whether the suffix takes the style of the text
/// before it.
#[derive(Drop)]
pub struct SuffixedCut<'a> {
    pub suffix: &'a str,
    pub taken: usize,
    pub limit: SuffixLimit,
    pub multiline: bool,
    pub try_color: bool,
    pub ghost measured: { TakesColumns suffix.now taken },
}

// A text that measures more than the width given to it is cut.
impl<'a> RoomChange for SuffixedCut<'a> {
    ghost use Rattle.tabled_width_texts.specs.Cuts.{suffixed_cut_of};

    ghost fitted = { λ cut. truncating (suffixed_cut_of cut) };

    fn fit<R: PeekableRecords>(
        &self,
        alloc: Global,
        records: &R,
        pos: Position,
        room: usize,
    ) -> Result<Option<Text>, AllocError> {
        if records.get_width(pos) <= room {
            return Ok(None);
        }
        let cut = self.cut(alloc, records.get_text(pos), room)?;
        Ok(Some(Text::new(alloc, cut)?))
    }
}

impl<'a> SuffixedCut<'a> {
    ghost use Rattle.tabled_width_texts.specs.Cuts.{suffixed_cut_of};

    // The text cut to the width given to it, or each of its lines so.
    fn cut(&self, alloc: Global, text: &str, room: usize) -> Result<String, AllocError>
        ensures { IfOk result (λ out. string_bytes out ≡ cut_text (suffixed_cut_of self.now) room text.now) }
    {
        if self.multiline {
            return change_lines(alloc, text, &CutLine { cut: self, room });
        }
        let mut out = String::new(alloc);
        self.push_cut(alloc, &mut out, text, room)?;
        Ok(out)
    }

    // Appends the text cut to the width given to it, with the suffix.
    fn push_cut(
        &self,
        alloc: Global,
        out: &mut String,
        text: &str,
        room: usize,
    ) -> Result<(), AllocError>
        ensures { OnOk result (string_bytes out.new ≡ string_bytes out.old ++ cut_line (suffixed_cut_of self.now) room text.now) }
    {
        if self.suffix.is_empty() {
            return push_cut_at(alloc, out, text, room);
        }
        if self.taken >= room {
            return self.push_without_room(alloc, out, text, room);
        }
        push_cut_at(alloc, out, text, room - self.taken)?;
        self.push_suffix(alloc, out, text, room - self.taken)
    }

    // Appends the suffix after the cut of the text at this width.
    fn push_suffix(
        &self,
        alloc: Global,
        out: &mut String,
        text: &str,
        width: usize,
    ) -> Result<(), AllocError>
        ensures { OnOk result (string_bytes out.new ≡ string_bytes out.old ++ suffix_behind (suffixed_cut_of self.now) width text.now) }
    {
        if self.try_color {
            push_styled(alloc, out, self.suffix, last_style(text, width))
        } else {
            out.push_str(self.suffix)?;
            Ok(())
        }
    }

    // Appends what is left where the suffix takes the given width or more.
    fn push_without_room(
        &self,
        alloc: Global,
        out: &mut String,
        text: &str,
        room: usize,
    ) -> Result<(), AllocError>
        ensures { OnOk result (string_bytes out.new ≡ string_bytes out.old ++ without_room (suffixed_cut_of self.now) self.now.limit room text.now) }
    {
        match self.limit {
            SuffixLimit::Cut => push_cut_at(alloc, out, self.suffix, room),
            SuffixLimit::Ignore => push_cut_at(alloc, out, text, room),
            SuffixLimit::Replace(c) => push_filled(out, c, room),
        }
    }
}

// A line, cut to a width.
#[derive(Drop)]
struct CutLine<'a, 'b> {
    cut: &'b SuffixedCut<'a>,
    room: usize,
}

impl<'a, 'b> LineChange for CutLine<'a, 'b> {
    ghost use Rattle.tabled_width_texts.specs.Cuts.{suffixed_cut_of};

    ghost becomes = { λ change line. cut_line (suffixed_cut_of change.cut.now) change.room line };

    fn push_line(&self, alloc: Global, out: &mut String, line: &str) -> Result<(), AllocError> {
        self.cut.push_cut(alloc, out, line, self.room)
    }
}

// Appends the cut of a text.
fn push_cut_at(alloc: Global, out: &mut String, text: &str, width: usize) -> Result<(), AllocError>
    ensures { OnOk result (string_bytes out.new ≡ string_bytes out.old ++ cut_at width text.now) }
{
    let cut = cut_styled(alloc, text, width)?;
    out.push_str(&cut)?;
    Ok(())
}

// Appends a text between the start and the end of a style.
fn push_styled(alloc: Global, out: &mut String, text: &str, style: Style) -> Result<(), AllocError>
    ensures { OnOk result (string_bytes out.new ≡ string_bytes out.old ++ (start_bytes style ++ (text.now ++ end_bytes style))) }
{
    let start = style.start();
    let end = style.end();
    let styled = format!(in alloc; "{start}{text}{end}")?;
    out.push_str(&styled)?;
    Ok(())
}

// Appends a character as often as it fits, and U+FFFD for the columns that are left.
fn push_filled(out: &mut String, c: char, room: usize) -> Result<(), AllocError>
    ensures { OnOk result (string_bytes out.new ≡ string_bytes out.old ++ filled_by c room) }
{
    let cost = get_char_width(c).max(1);
    let count = room / cost;
    push_repeated(out, c, count)?;
    push_repeated(out, '\u{fffd}', room - count * cost)
}
