//! The versions of the scene format.
ghost use Rattle.std.specs.Prelude.{◌≡◌};
ghost use Rattle.rail_scene.specs.Versions.{version_number, version_named};

/// A version of the scene format: which keys the tables of a scene file have. The root of the file names it by its number.
#[derive(Clone, Copy)]
pub enum Version {
    /// The first, with twelve keys in the root and four in a route.
    One,
    /// The second, which has overlaps: one key more in the root and in a route.
    Two,
}

impl Version {
    /// The newest version. A file that names no version is read by its keys, and a refusal, which does not tell the
    /// version of its file, is explained by them.
    pub const NEWEST: Version = Version::Two;

    /// The number by which the root of a scene file names the version.
    pub fn number(self) -> u32
        ensures { result ≡ version_number self }
    {
        match self {
            Version::One => 1,
            Version::Two => 2,
        }
    }

    /// The version that a number names, if one does.
    pub(crate) fn named(number: u32) -> Option<Version>
        ensures { result ≡ version_named number }
    {
        match number {
            1 => Some(Version::One),
            2 => Some(Version::Two),
            _ => None,
        }
    }
}
