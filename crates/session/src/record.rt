//! The records of the bodies: their fields, and the first field that is outside its values.

ghost use Rattle.std.specs.Prelude.{◌≡◌, ℕ, ◌+◌, ◌/◌, ◌≤◌, List, length};
ghost use Rattle.session.specs.declared.body.BodyKind.{BodyKind};
ghost use Rattle.session.specs.declared.field.Field.{Field};
ghost use Rattle.session.specs.Faults.{bad_field, first_in};
ghost use Rattle.session.specs.Fields.{first_bad};

pub(crate) mod fields;
pub(crate) mod filed;
pub(crate) mod flags;
pub(crate) mod kind;
pub(crate) mod walk;

/// How many bytes a heading has.
pub(crate) const HEADING_SIZE: usize = 8;

/// A kind of record that a body repeats.
pub trait Record {
    /// How many bytes a record has.
    const SIZE: usize;

    ghost SIZE: { ℕ };

    ghost body: { BodyKind };

    ghost fields: { List ℕ → ℕ → List Field };

    /// The first field outside its values, of the record that begins at a byte.
    fn first_bad(bytes: &[u8], at: usize) -> Option<usize>
        requires { at + SIZE ≤ length bytes.now }
        ensures { result ≡ first_bad (fields bytes.now at) bytes.now at };

    ghost some: { 1 ≤ SIZE };

    ghost repeated: { (bs : List ℕ) → bad_field body bs ≡ first_in fields SIZE (length bs / SIZE) bs 0 };
}
