// A path as far as its lines have come.

use crate::fault::PathFault;
use crate::line::Part;
use sheet::{Form, PathValue, no_path};

// Which line of a path comes next. Behind a wrong line the rest of its path is passed over.
#[derive(Clone, Copy, PartialEq)]
pub(crate) enum Next {
    Declaration,
    Wanted,
    Operator,
    Nothing,
    Wrong,
}

#[derive(Clone, Copy)]
pub(crate) struct Draft {
    pub(crate) path: PathValue,
    pub(crate) next: Next,
}

impl Draft {
    pub(crate) fn empty() -> Draft {
        Draft {
            path: no_path(),
            next: Next::Declaration,
        }
    }

    // The draft with one part more, which has to be the one that comes next: the declaration or a house profile, behind which comes nothing,
    // then the delay wanted, then up to sixteen operators.
    pub(crate) fn with(mut self, part: Part) -> Result<Draft, PathFault> {
        match (self.next, part) {
            (Next::Declaration, Part::Declared(declaration)) => {
                self.path.declaration = declaration;
                self.next = Next::Wanted;
            }
            (Next::Declaration, Part::House(house)) => {
                self.path.form = Form::House(house);
                self.next = Next::Nothing;
            }
            (Next::Declaration, _) => return Err(PathFault::DeclarationMissing),
            (Next::Wanted, Part::Wanted(wanted)) => {
                self.path.wanted = wanted;
                self.next = Next::Operator;
            }
            (Next::Wanted, Part::Operator(_)) => return Err(PathFault::WantedMissing),
            (Next::Operator, Part::Operator(linked)) if self.path.count < 16 => {
                self.path.operators[self.path.count] = linked;
                self.path.count += 1;
            }
            _ => return Err(PathFault::LineTooMany),
        }
        Ok(self)
    }

    // Whether nothing is missing: an operator has come, or a house profile.
    pub(crate) fn is_whole(self) -> bool {
        match self.next {
            Next::Operator => 0 < self.path.count,
            Next::Nothing => true,
            _ => false,
        }
    }
}
