// Lines that are made one after another, and listed.
ghost use Rattle.std.specs.Prelude.{◌≡◌, ℕ, ◌+◌, ◌-◌, ◌^◌, ◌<◌, ◌≤◌, true, List, [], length, Err, OnOk, IfErr, IfOk};
ghost use Rattle.std.specs.Bool.{OnTrue, OnFalse};
ghost use Rattle.std.specs.Borrow.{GName};
ghost use Rattle.fl_base.specs.Causes.{HasCause};
ghost use Rattle.fl_flash.specs.Flash.{FlashState};
ghost use Rattle.fl_frame.specs.Contents.{Contents, contents_of, OnlyReads};
ghost use Rattle.fl_ops.specs.Inputs.{StepsOver};
ghost use Rattle.fl_page.specs.Causes.{IsCaused};
ghost use Rattle.fl_page.specs.Steps.{left_after};
ghost use Rattle.fl_page.specs.declared.fault.BadPage.{BadPage};
ghost use Rattle.fl_script.specs.Written.{Written};
ghost use Rattle.fl_words.specs.Reply as words;
ghost use Rattle.fl_queries.specs.ListSays.{EndsCounted, GivesLines, ListSays, SaysEnd};
ghost use Rattle.fl_queries.specs.Listed.{IfUnread};
ghost use Rattle.fl_queries.specs.Lines.{AreMade, Counted, HasSinkCause, IsNoBadPage, MakesLine, ReadsLines};
ghost use Rattle.fl_queries.specs.declared.rows.RowForm.{RowForm};

use crate::listing::{ListFault, write_fault};
use crate::rows::RowForm;
use fl_base::{Sink, SinkFailed};
use fl_flash::Flash;
use fl_page::ReadFault;
use fl_script::{Reply, RowLine, write_reply};

/// Makes lines one after another, over a flash that it only reads.
pub(crate) trait ReplyLines<F: Flash> {
    /// The names of the references that it holds.
    ghost names: { Self → List GName };

    /// Whether it can go over a flash that holds this.
    ghost ready: { Self → Contents → Type 0 };

    /// Whether its lines have this form.
    ghost fits: { Self → RowForm → Type 0 };

    /// Whether the lines left are told over a flash that holds this.
    ghost told: { Self → Contents → Type 0 };

    /// Whether there is a line, and the present one.
    ghost here: { Self → Type 0 };

    ghost present: { Self → RowForm → words.Reply };

    /// What is said of the lines of a form that it makes from one state to another.
    ghost made: { RowForm → Self → Self → List words.Reply → Type 0 };

    /// Which pages may be bad in a flash that holds this.
    ghost passes: { Self → Contents → BadPage → Type 0 };

    /// Whether no page that it reads from now on, up to the last line, is bad in a flash that holds this.
    ghost sound: { Self → Contents → Type 0 };

    /// The lines left.
    ghost lines: { Self → RowForm → Contents → List words.Reply };

    /// How many reads the lines left take at most, up to the first that fails, and how many at least where none fails.
    ghost most: { Self → Contents → ℕ };

    ghost least: { Self → Contents → ℕ };

    /// Goes to the next line, and says whether there is one.
    fn next_line(&mut self, flash: &mut F) -> Result<bool, ReadFault>
        requires { ready self.old (contents_of (F.state flash.old)) }
        ensures reads_only { OnlyReads (F.state flash.old) (F.state flash.new) }
        ensures cause { IfErr result (λ fault. IsCaused (F.state flash.old) fault (F.state flash.new)) }
        ensures names { names self.new ≡ names self.old }
        ensures stays_ready { (contents : Contents) → ready self.old contents → ready self.new contents }
        ensures fits { (form : RowForm) → fits self.old form → fits self.new form }
        ensures here { IfOk result (λ more. OnTrue more (here self.new)) }
        ensures makes { (form : RowForm) (first : Self) (before : List words.Reply) → made form first self.old before → MakesLine (made form first self.new) result before (present self.new form) }
        ensures bad_page { (bad : BadPage) → result ≡ Err (ReadFault.BadPage bad) → passes self.old (contents_of (F.state flash.old)) bad }
        ensures same_test { (contents : Contents) (bad : BadPage) → passes self.new contents bad → passes self.old contents bad }
        ensures sound { OnOk result (sound self.new (contents_of (F.state flash.old)) → sound self.old (contents_of (F.state flash.old))) }
        ensures all_sound { IfOk result (λ more. OnFalse more (sound self.old (contents_of (F.state flash.old)))) }
        ensures stays_told { told self.old (contents_of (F.state flash.old)) → told self.new (contents_of (F.state flash.old)) }
        ensures steps { (form : RowForm) → told self.old (contents_of (F.state flash.old)) →
            StepsOver result (lines self.old form (contents_of (F.state flash.old))) (present self.new form) (lines self.new form (contents_of (F.state flash.old))) }
        ensures most { told self.old (contents_of (F.state flash.old)) →
            (F.state flash.new).work.reads + left_after result (most self.new (contents_of (F.state flash.old))) ≤ (F.state flash.old).work.reads + most self.old (contents_of (F.state flash.old)) }
        ensures least { told self.old (contents_of (F.state flash.old)) → (F.state flash.new).work.reads < 2 ^ 64 - 1 →
            OnOk result ((F.state flash.old).work.reads + least self.old (contents_of (F.state flash.old)) ≤ (F.state flash.new).work.reads + least self.new (contents_of (F.state flash.old))) }
        ensures none_left { told self.old (contents_of (F.state flash.old)) → IfOk result (λ more. OnFalse more (least self.new (contents_of (F.state flash.old)) ≡ 0)) };

    /// Writes the present line, after a step that answered true. A row's line is made in `line`.
    fn show_line<K: Sink>(
        &self,
        form: RowForm,
        line: &mut RowLine,
        out: &mut K,
    ) -> Result<(), SinkFailed>
        requires here { here self.now }
        requires fits { fits self.now form }
        ensures text { Written (K.written out.old) (K.written out.new) result (words.text (present self.now form)) }
        ensures cause { HasCause (K.faults out.old) (K.faults out.new) result };

    /// From a state to itself it has made none.
    ghost made_none: { (form : RowForm) (lines : Self) → made form lines lines [] };
}

/// Lists the lines, up to so many, and counts them.
pub(crate) fn list_lines<F: Flash, L: ReplyLines<F>, K: Sink>(
    lines: &mut L,
    count: u64,
    form: RowForm,
    flash: &mut F,
    out: &mut K,
) -> Result<u64, ListFault>
    requires ready { L.ready lines.old (contents_of (F.state flash.old)) }
    requires fits { L.fits lines.old form }
    ensures reads_only { OnlyReads (F.state flash.old) (F.state flash.new) }
    ensures names { L.names lines.new ≡ L.names lines.old }
    ensures stays_ready { (contents : Contents) → L.ready lines.old contents → L.ready lines.new contents }
    ensures cause { HasSinkCause (K.faults out.old) (K.faults out.new) result }
    ensures lines { GivesLines (AreMade (L.made form lines.old lines.new) (L.told lines.old (contents_of (F.state flash.old))) (L.lines lines.old form (contents_of (F.state flash.old))))
        (L.passes lines.old (contents_of (F.state flash.old))) count (K.written out.old) (K.written out.new) result }
    ensures whole { L.told lines.old (contents_of (F.state flash.old)) → IfOk result (λ given. given < count → length (L.lines lines.old form (contents_of (F.state flash.old))) ≡ given) }
    ensures good { L.told lines.old (contents_of (F.state flash.old)) → IfErr result IsNoBadPage }
    ensures sound { IfOk result (λ given. given < count → L.sound lines.old (contents_of (F.state flash.old))) }
    ensures unread { IfErr result (IfUnread (F.state flash.old) (F.state flash.new)) }
    ensures reads { L.told lines.old (contents_of (F.state flash.old)) →
        ReadsLines count (L.most lines.old (contents_of (F.state flash.old))) (L.least lines.old (contents_of (F.state flash.old))) (F.state flash.old).work.reads (F.state flash.new).work.reads result }
{
    let mut line = RowLine::new();
    for given in 0..count {
        if !lines.next_line(flash)? {
            return Ok(given);
        }
        lines.show_line(form, &mut line, out)?;
    }
    Ok(count)
}

/// Says how many lines were listed, or why a page isn't read. A sink that failed is asked for nothing more.
pub(crate) fn end_list<K: Sink>(
    listed: Result<u64, ListFault>,
    out: &mut K,
) -> Result<(), SinkFailed>
    ensures cause { (faults : ℕ) → HasSinkCause faults (K.faults out.old) listed → HasCause faults (K.faults out.new) result }
    ensures says { SaysEnd listed (K.written out.old) (K.written out.new) result }
{
    match listed {
        Ok(count) => write_reply(&Reply::EndCount { count }, out),
        Err(fault) => write_fault(fault, out),
    }
}

/// Lists the lines and their number, or says why a page isn't read.
pub(crate) fn answer_lines<F: Flash, L: ReplyLines<F>, K: Sink>(
    lines: &mut L,
    form: RowForm,
    flash: &mut F,
    out: &mut K,
) -> Result<(), SinkFailed>
    requires ready { L.ready lines.old (contents_of (F.state flash.old)) }
    requires fits { L.fits lines.old form }
    ensures reads_only { OnlyReads (F.state flash.old) (F.state flash.new) }
    ensures names { L.names lines.new ≡ L.names lines.old }
    ensures stays_ready { (contents : Contents) → L.ready lines.old contents → L.ready lines.new contents }
    ensures cause { HasCause (K.faults out.old) (K.faults out.new) result }
    ensures says { ListSays (L.made form lines.old lines.new) (EndsCounted (L.sound lines.old (contents_of (F.state flash.old))) (L.passes lines.old (contents_of (F.state flash.old))) (F.state flash.old) (F.state flash.new)) (K.written out.old) (K.written out.new) result }
    ensures counted { L.told lines.old (contents_of (F.state flash.old)) → length (L.lines lines.old form (contents_of (F.state flash.old))) < 2 ^ 64 - 1 → (F.state flash.old).is_on ≡ true →
        Counted (L.lines lines.old form (contents_of (F.state flash.old))) (L.most lines.old (contents_of (F.state flash.old))) (L.least lines.old (contents_of (F.state flash.old)))
        (K.written out.old) (K.written out.new) (F.state flash.old).media.faults (F.state flash.new).media.faults (F.state flash.old).work.reads (F.state flash.new).work.reads result }
{
    let listed = list_lines(lines, u64::MAX, form, flash, out);
    end_list(listed, out)
}
