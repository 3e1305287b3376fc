//! Instances: an equation together with values for its parameters.
ghost use Rattle.std.specs.Prelude.{◌≡◌, ◌≤◌, map, length, take, Some, Decides};
ghost use Rattle.std.specs.Cmp.Rules.{comparing};
ghost use Rattle.std.proofs.Common.{rules};
ghost use Rattle.terms.specs.Known.{Alike};
ghost use Rattle.system.specs.Instances.{same_instance};

/// An equation together with values for its parameters, and zeros in the unused places.
#[derive(Clone, Copy, Default, Eq, Debug)]
pub struct Instance {
    pub equation: u8,
    pub values: [u8; 15],
}

impl Instance {
    // The values of the first parameters.
    fn first(&self, count: usize) -> &[u8]
        ensures front { result.now ≡ take count self.now.values }
        ensures few { length result.now ≤ 15 }
    {
        if count < 15 {
            &self.values[..count]
        } else {
            &self.values
        }
    }

    /// The values of the first parameters as known ones.
    pub fn known(&self, count: usize) -> [Option<u8>; 15]
        ensures { Alike result (map Some (take count self.now.values)) }
    {
        let mut known = [None; 15];
        // By index: of what `iter_mut().zip(..)` has written a proof knows nothing afterwards.
        for (i, value) in self.first(count).iter().enumerate() {
            known[i] = Some(*value);
        }
        known
    }
}

// By hand, since a derive promises nothing of an array: this one decides equality.
impl PartialEq for Instance {
    ghost eq = { same_instance };

    ghost laws = { Prim.search (comparing, rules) };

    fn eq(&self, other: &Instance) -> bool
        ensures same { result ≡ same_instance self.now other.now }
        ensures decides { Decides result (self.now ≡ other.now) }
    {
        self.equation == other.equation && self.values == other.values
    }
}
