// Instructions written one after the other to lent bytes, and what refusal 54 needs to know on the way.
ghost use Rattle.std.specs.Prelude.{◌≡◌, ℕ, List};
ghost use Rattle.parsing.specs.Work.{is_set, work_of, put, put_if, masked, ended, stray_by, stepped, applied};

// How many instructions are written; whether a path mark was read since the innermost `{`; whether one stood within an ahead or back step.
// The two marks are 0 or 1 in whole words: a struct with padding is slow to hand on from call to call.
#[derive(Clone, Copy)]
pub(crate) struct Writing {
    pub(crate) length: usize,
    pub(crate) modal: usize,
    pub(crate) stray: usize,
}

// One instruction more.
pub(crate) fn write(w: Writing, code: u8, out: &mut [u8]) -> Writing
    ensures { work_of result out.new ≡ put code (work_of w out.old) }
{
    if w.length < out.len() {
        out[w.length] = code;
        return Writing {
            length: w.length + 1,
            ..w
        };
    }
    w
}

// One instruction more where something waits for it.
pub(crate) fn write_if(w: Writing, waits: bool, code: u8, out: &mut [u8]) -> Writing
    ensures { work_of result out.new ≡ put_if waits code (work_of w out.old) }
{
    if waits {
        return write(w, code, out);
    }
    w
}

// As many times the instruction that makes the node of a prefix.
pub(crate) fn write_prefixes(w: Writing, count: usize, out: &mut [u8]) -> Writing
    ensures { work_of result out.new ≡ applied count (work_of w out.old) }
{
    let mut x = w;
    for _ in 0..count {
        x = write(x, b'.', out);
    }
    x
}

// A path ends: a path mark was read.
pub(crate) fn write_end(w: Writing, code: u8, out: &mut [u8]) -> Writing
    ensures { work_of result out.new ≡ ended code (work_of w out.old) }
{
    let x = write(w, code, out);
    Writing { modal: 1, ..x }
}

// A step's formula begins.
pub(crate) fn masked_at(w: Writing) -> Writing
    ensures { (out : List ℕ) → work_of result out ≡ masked (work_of w out) }
{
    Writing { modal: 0, ..w }
}

// A step: a path mark in it is astray unless the step is a test.
pub(crate) fn write_step(w: Writing, code: u8, out: &mut [u8]) -> Writing
    ensures { work_of result out.new ≡ stepped code (work_of w out.old) }
{
    let x = write(w, code, out);
    Writing {
        stray: stray_by(code, x.modal, x.stray),
        ..x
    }
}

// Whether a path mark is astray, of the step or of one before it.
fn stray_by(code: u8, modal: usize, stray: usize) -> usize
    ensures { is_set result ≡ stray_by code (is_set modal) (is_set stray) }
{
    if code == b't' {
        return stray;
    }
    if modal == 0 {
        return stray;
    }
    1
}
