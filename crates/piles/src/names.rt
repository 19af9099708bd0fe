//! The words for mappings and layers.
ghost use Rattle.std.specs.Prelude.{Some, codes};
ghost use Rattle.piles.specs.Piled.{base_name, layer_name};
ghost use Rattle.piles.specs.Names.{Reads};

use super::pile::*;
use std::error::Error;
use std::fmt;
use std::str::FromStr;

/// A word that names nothing of the kind asked for.
#[derive(Clone, Copy, Debug, PartialEq, Eq)]
pub struct UnknownName;

impl fmt::Display for UnknownName {
    ghost output = { λ _. Some (codes "no mapping and no layer has this name") };

    fn fmt<W: fmt::Write>(&self, f: &mut fmt::Formatter<W>) -> fmt::Result {
        f.write_str("no mapping and no layer has this name")
    }
}

impl Error for UnknownName {}

/// The published mapping of a name.
impl FromStr for Base {
    type Err = UnknownName;

    ghost from_str_gives = { Reads base_name };

    fn from_str(word: &str) -> Result<Base, UnknownName> {
        match word {
            "trailing" => Ok(Base::Trailing),
            "locked" => Ok(Base::Locked),
            "leading" => Ok(Base::Leading),
            _ => Err(UnknownName),
        }
    }
}

/// The layer of a name.
impl FromStr for Layer {
    type Err = UnknownName;

    ghost from_str_gives = { Reads layer_name };

    fn from_str(word: &str) -> Result<Layer, UnknownName> {
        match word {
            "sparing" => Ok(Layer::Sparing),
            "exchange" => Ok(Layer::Exchange),
            _ => Err(UnknownName),
        }
    }
}
