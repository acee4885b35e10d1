// The kinds of letters.
ghost use Rattle.std.specs.Prelude.{◌≡◌};
ghost use Rattle.vpa.specs.TableOnDisk.{kind_numbered};
ghost use Rattle.table.specs.Answers.{kind_meant};

#[derive(Clone, Copy, Debug, PartialEq, Eq)]
pub enum Kind {
    Plain,
    Open,
    Close,
}

// From the byte that stands for it. No table has one over 2, which counts as a close here.
impl From<u8> for Kind {
    ghost from_gives = { λ number kind. kind_meant kind ≡ kind_numbered number };

    fn from(number: u8) -> Kind {
        match number {
            0 => Kind::Plain,
            1 => Kind::Open,
            _ => Kind::Close,
        }
    }
}
