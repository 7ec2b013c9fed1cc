//! Names of the line: fixed ones, those of a station, and those of its routes.
ghost use Rattle.std.specs.Prelude.{◌≡◌, ◌<◌, ◌+◌, ◌∷◌, [], ◌++◌, IsTrue, codes};
ghost use Rattle.rail_base.specs.NameForms.{is_name, is_name_byte};
ghost use Rattle.rail_base.specs.Clock.{two_digits};
ghost use Rattle.rail_gen.specs.LinePlants.{at_station, route_name};
ghost use Rattle.rail_gen.specs.MadeScenes.{track_of};

use rail_base::Name;

/// The name that the bytes are.
pub(crate) fn name(bytes: &[u8]) -> Name
    requires { IsTrue (is_name bytes.now) }
    ensures { result ≡ bytes.now }
{
    Name::read(bytes).unwrap()
}

/// A letter with the digit of a station.
pub(crate) fn at_station(letter: u8, k: u8) -> Name
    requires letter { IsTrue (is_name_byte letter) }
    requires digit { k < 10 }
    ensures { result ≡ at_station (letter ∷ []) k }
{
    name(&[letter, b'0' + k])
}

/// The name of a route of a station: a way of three letters, the digit of the station, and the letter of the track.
pub(crate) fn route_in(way: u8, k: u8, is_b: bool) -> Name
    requires way { IsTrue (is_name_byte way) }
    requires digit { k < 10 }
    ensures { result ≡ route_name (way ∷ codes "in") k (track_of is_b) }
{
    if is_b {
        name(&[way, b'i', b'n', b'0' + k, b'b'])
    } else {
        name(&[way, b'i', b'n', b'0' + k, b'a'])
    }
}

/// The name of a route of a station: a way of four letters, the digit of the station, and the letter of the track.
pub(crate) fn route_out(way: u8, k: u8, is_b: bool) -> Name
    requires way { IsTrue (is_name_byte way) }
    requires digit { k < 10 }
    ensures { result ≡ route_name (way ∷ codes "out") k (track_of is_b) }
{
    if is_b {
        name(&[way, b'o', b'u', b't', b'0' + k, b'b'])
    } else {
        name(&[way, b'o', b'u', b't', b'0' + k, b'a'])
    }
}

/// The name of a train: its number with two digits.
pub(crate) fn train_name(n: u8) -> Name
    requires { n < 100 }
    ensures { result ≡ codes "T" ++ two_digits n }
{
    name(&[b'T', b'0' + n / 10, b'0' + n % 10])
}
