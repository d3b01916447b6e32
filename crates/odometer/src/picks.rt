// The picks of a run, and those of the next run.
ghost use Rattle.std.specs.Prelude.{◌≡◌, ◌<◌, All, true, false, Some, None, map, take, length};
ghost use Rattle.odometer.specs.Odometer.{next, digits, choices_of, IsPick};

/// A pick of a run: the number of the option that was taken, from 0 on, and how many options there were, at least two.
#[derive(Clone, Copy, Debug, PartialEq, Eq)]
pub struct Pick {
    pub picked: u32,
    pub options: u32,
}

/// Changes the picks of a run to those with which the next run begins: the last pick that has a further option takes it, earlier picks stay,
/// and later ones are dropped. The answer is true then. It is false where no pick has a further option: that was the last run.
pub fn advance(path: &mut Vec<Pick>) -> bool
    requires { All IsPick path.old.items }
    ensures next { result ≡ true → next path.old.items ≡ Some (digits path.new.items) }
    ensures options { result ≡ true → choices_of path.new.items ≡ take (length path.new.items) (choices_of path.old.items) }
    ensures last { result ≡ false → next path.old.items ≡ None }
{
    let mut at = path.len();
    while at > 0 {
        at -= 1;
        let last = path[at];
        if last.picked + 1 < last.options {
            path[at] = Pick {
                picked: last.picked + 1,
                options: last.options,
            };
            path.truncate(at + 1);
            return true;
        }
    }
    false
}
