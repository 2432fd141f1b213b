// Marks of pixels in which something may begin, in two levels: one for each pixel of a window, and two numbers for each group of 64 pixels. The
// first 16 numbers tell before which pixel the marks of a group end, the next 16 how far before the group's end they begin; both are 0 where
// there is none.
ghost use Rattle.std.specs.Prelude.{◌≡◌, ◌<◌, ◌≤◌, length, set};
ghost use Rattle.coverage.specs.Marks.{raised, touched, Grouped};

// Marks pixel p, and notes it for its group.
pub fn mark(marks: &mut [u8], groups: &mut [u16], p: usize)
    requires { (p < length marks.old) × Grouped marks.old groups.old }
    ensures marks_after { marks.new ≡ set marks.old p 1 }
    ensures grouped { Grouped marks.new groups.new }
{
    marks[p] = 1;
    touch(groups, p, p);
}

// Notes for their group that pixels from lo to hi may be marked.
#[tactic(auto, unfolding(crate::specs::Marks::touched))]
pub fn touch(groups: &mut [u16], lo: usize, hi: usize)
    requires { (lo ≤ hi) × (hi < 1024) × (length groups.old ≡ 32) }
    ensures { groups.new ≡ touched groups.old lo hi }
{
    raise(groups, hi / 64, hi + 1);
    raise(groups, 16 + lo / 64, 64 - lo % 64);
}

// The number at a place becomes n, if it was less.
fn raise(groups: &mut [u16], i: usize, n: usize)
    requires { (i < length groups.old) × (n ≤ 1024) }
    ensures { groups.new ≡ raised groups.old i n }
{
    groups[i] = groups[i].max(n as u16);
}
