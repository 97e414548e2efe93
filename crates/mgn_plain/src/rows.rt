ghost use Rattle.std.specs.Prelude.{◌≡◌, ◌<◌, length};
ghost use Rattle.mgn_plain.specs.Kept.{mark_at};

// Whether a commodity is marked.
pub(crate) fn mark_at(marks: &[bool], commodity: usize) -> bool
    requires { commodity < length marks.now }
    ensures { result ≡ mark_at marks.now commodity }
{
    marks[commodity]
}
