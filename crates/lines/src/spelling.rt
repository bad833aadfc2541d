// What a pen spells: numbers, and the names of atoms.
ghost use Rattle.std.specs.Prelude.{◌∷◌, decimal};
ghost use Rattle.names.specs.Tables.{atoms_in};
ghost use Rattle.lines.specs.Bytes.{atom_bytes, value_bytes, spaced};
ghost use Rattle.lines.specs.Names.{name_or_none, names_of};
ghost use Rattle.lines.specs.Pens.{Spells};

use crate::known::atom_name;
use crate::pen::Pen;
use crate::quoting::is_bare;
use itoa::Buffer;
use names::Names;
use terms::Atom;

impl Pen<'_> {
    /// Spells a number in decimal.
    pub(crate) fn put_number(&mut self, n: usize)
        ensures { Spells self.old (decimal n) self.new }
    {
        self.put(Buffer::new().format(n).as_bytes());
    }

    /// Spells an atom's name, in quotes where it is not bare.
    fn put_atom(&mut self, name: &[u8])
        ensures { Spells self.old (atom_bytes name.now) self.new }
    {
        if is_bare(name) {
            self.put(name);
        } else {
            self.put(b"'");
            self.put(name);
            self.put(b"'");
        }
    }

    fn put_blank_and_atom(&mut self, names: &Names, atom: Atom)
        ensures { Spells self.old (32 ∷ atom_bytes (name_or_none (atoms_in names.now) atom.0)) self.new }
    {
        self.put(b" ");
        self.put_atom(atom_name(names, atom));
    }

    /// Spells the names of atoms, with a blank in front of each.
    pub(crate) fn put_value(&mut self, names: &Names, atoms: &[Atom])
        ensures { Spells self.old (value_bytes (names_of (atoms_in names.now) atoms.now)) self.new }
    {
        for atom in atoms {
            self.put_blank_and_atom(names, *atom);
        }
    }

    /// Spells the names of atoms, with a blank between each two.
    pub(crate) fn put_path(&mut self, names: &Names, atoms: &[Atom])
        ensures { Spells self.old (spaced (names_of (atoms_in names.now) atoms.now)) self.new }
    {
        if let Some((first, rest)) = atoms.split_first() {
            self.put_atom(atom_name(names, *first));
            self.put_value(names, rest);
        }
    }
}
