// The rules that a walk has crossed, in the value itself.
ghost use Rattle.std.specs.Prelude.{◌≡◌, ◌<◌, ◌≤◌, [], ◌∷◌, ◌++◌, length};

use super::level::Mark;

// At most four marks, in the order in which they came. They lie in the first `len` places.
// There is no model: a copy of a value with one has no proof in some places, as in a tuple.
#[derive(Clone, Copy)]
pub struct Crossed {
    marks: [Mark; 4],
    len: usize,
    ghost few: { len ≤ 4 },
}

impl Crossed {
    ghost use Rattle.datapath.specs.Crossed.{marks_of};

    // No mark.
    pub fn new() -> Crossed
        ensures { marks_of result ≡ [] }
    {
        Crossed {
            marks: [NOWHERE; 4],
            len: 0,
        }
    }

    // One mark more, behind the others. There must be room.
    pub fn push(&mut self, mark: Mark)
        requires { length (marks_of self.old) < 4 }
        ensures { marks_of self.new ≡ marks_of self.old ++ mark ∷ [] }
    {
        self.marks[self.len] = mark;
        self.len += 1;
    }

    // The marks.
    pub fn as_slice(&self) -> &[Mark]
        ensures value { result.now ≡ marks_of self.now }
        ensures fits { length result.now ≤ 4 }
    {
        &self.marks[..self.len]
    }

    // How many there are.
    pub fn len(&self) -> usize
        ensures value { result ≡ length (marks_of self.now) }
        ensures fits { result ≤ 4 }
    {
        self.as_slice().len()
    }
}

// What stands in a place that no rule was crossed at.
const NOWHERE: Mark = Mark {
    table: 0,
    id: 0,
    ports: 0,
    next: 0,
};
