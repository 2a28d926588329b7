ghost use Rattle.std.specs.Prelude.{◌≡◌, IfOk};
ghost use Rattle.serde_json.specs.View.{view};
ghost use Rattle.cut_plan.specs.Failing.{version_of, faults_in, deaf_in};
ghost use Rattle.cut_plan.specs.Canonical.{failing_data};
ghost use Rattle.cut_fields.specs.declared.version.Version.TheVariants.{One, Two};

use crate::{Faults, Version};
use serde_json::Value;
use std::alloc::{AllocError, Global};

/// How the targets of a plan fail.
#[derive(Clone, Copy, Debug, PartialEq, Eq)]
pub enum Failing {
    /// All fail in this way.
    Alike(Faults),
    /// This many of a cell's targets are deaf, or all if it has fewer; the others have crashed.
    Mixed(u16),
}

impl Failing {
    /// The version of the plans that say this.
    pub(crate) fn version(self) -> Version
        ensures { result ≡ version_of self }
    {
        match self {
            Failing::Alike(_) => Version::One,
            Failing::Mixed(_) => Version::Two,
        }
    }

    /// The way in which all targets fail, if it is the same for all.
    pub(crate) fn faults(self) -> Option<Faults>
        ensures { result ≡ faults_in self }
    {
        match self {
            Failing::Alike(faults) => Some(faults),
            Failing::Mixed(_) => None,
        }
    }

    /// How many are deaf, if the plan says a number.
    pub(crate) fn deaf(self) -> Option<u16>
        ensures { result ≡ deaf_in self }
    {
        match self {
            Failing::Alike(_) => None,
            Failing::Mixed(deaf) => Some(deaf),
        }
    }

    /// The word for the way in which all targets fail, as JSON, null if there is none.
    pub(crate) fn faults_value(self, alloc: Global) -> Result<Value, AllocError>
        ensures { IfOk result (λ value. view value ≡ failing_data One self) }
    {
        match self {
            Failing::Alike(faults) => Value::try_from_str(alloc, faults.word()),
            Failing::Mixed(_) => Ok(Value::Null),
        }
    }

    /// How many are deaf, as JSON, null if the plan says no number.
    pub(crate) fn deaf_value(self) -> Value
        ensures { view result ≡ failing_data Two self }
    {
        match self {
            Failing::Alike(_) => Value::Null,
            Failing::Mixed(deaf) => Value::from(deaf),
        }
    }
}
