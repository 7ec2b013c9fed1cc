//! The scenes of the rows.

/// A station with two tracks, in which a train turns on the first: the scene of `examples/turn.toml`.
pub(super) const TURN: &str = "\
version = 1
release = 20
[[section]]
name = 'W'
kind = 'plain'
length = 1000
speed = 90
joints = ['a', 'b']
[[section]]
name = 'PW'
kind = 'points'
length = 50
speed = 90
joints = ['b', 'c', 'd']
[[section]]
name = 'L1'
kind = 'plain'
length = 1000
speed = 90
joints = ['c', 'e']
[[section]]
name = 'L2'
kind = 'plain'
length = 1000
speed = 90
joints = ['d', 'f']
[[section]]
name = 'PE'
kind = 'points'
length = 50
speed = 90
joints = ['g', 'e', 'f']
[[section]]
name = 'E'
kind = 'plain'
length = 1000
speed = 90
joints = ['g', 'h']
[[portal]]
name = 'West'
joint = 'a'
setting = 10
watching = 10
approach = 100
[[portal]]
name = 'East'
joint = 'h'
setting = 10
watching = 10
approach = 100
[[signal]]
name = 'E1'
joint = 'e'
ahead = 'PE'
setting = 10
watching = 10
approach = 100
[[signal]]
name = 'E2'
joint = 'f'
ahead = 'PE'
setting = 10
watching = 10
approach = 100
[[signal]]
name = 'W1'
joint = 'c'
ahead = 'PW'
setting = 10
watching = 10
approach = 100
[[signal]]
name = 'W2'
joint = 'd'
ahead = 'PW'
setting = 10
watching = 10
approach = 100
[[signal]]
name = 'SW'
joint = 'b'
ahead = 'PW'
setting = 10
watching = 10
approach = 100
[[signal]]
name = 'SE'
joint = 'g'
ahead = 'PE'
setting = 10
watching = 10
approach = 100
[[turn]]
arriving = 'E1'
leaving = 'W1'
time = 0
[[route]]
name = 'we1'
from = 'West'
to = 'E1'
path = ['a', 'W', 'b', 'PW', 'c', 'L1', 'e']
[[route]]
name = 'we2'
from = 'West'
to = 'E2'
path = ['a', 'W', 'b', 'PW', 'd', 'L2', 'f']
[[route]]
name = 'ee1'
from = 'E1'
to = 'East'
path = ['e', 'PE', 'g', 'E', 'h']
[[route]]
name = 'ee2'
from = 'E2'
to = 'East'
path = ['f', 'PE', 'g', 'E', 'h']
[[route]]
name = 'ww1'
from = 'East'
to = 'W1'
path = ['h', 'E', 'g', 'PE', 'e', 'L1', 'c']
[[route]]
name = 'ww2'
from = 'East'
to = 'W2'
path = ['h', 'E', 'g', 'PE', 'f', 'L2', 'd']
[[route]]
name = 'xw1'
from = 'W1'
to = 'West'
path = ['c', 'PW', 'b', 'W', 'a']
[[route]]
name = 'xw2'
from = 'W2'
to = 'West'
path = ['d', 'PW', 'b', 'W', 'a']
[[route]]
name = 'w0'
from = 'West'
to = 'SW'
path = ['a', 'W', 'b']
[[route]]
name = 'wl1'
from = 'SW'
to = 'E1'
path = ['b', 'PW', 'c', 'L1', 'e']
[[route]]
name = 'wl2'
from = 'SW'
to = 'E2'
path = ['b', 'PW', 'd', 'L2', 'f']
[[route]]
name = 'e0'
from = 'East'
to = 'SE'
path = ['h', 'E', 'g']
[[route]]
name = 'el1'
from = 'SE'
to = 'W1'
path = ['g', 'PE', 'e', 'L1', 'c']
[[route]]
name = 'el2'
from = 'SE'
to = 'W2'
path = ['g', 'PE', 'f', 'L2', 'd']
[[kind]]
name = 'Q'
length = 1000
speed = 90
start = 100
stop = 0
[[train]]
name = 'A'
kind = 'Q'
entry = '00:02:00'
routes = ['we1', 'xw1']
";

/// Two trains, in opposite directions over the two tracks of a loop.
pub const LOOP: &str = r#"version = 1
release = 20

[[section]]
name = "W"
kind = "plain"
length = 1000
speed = 90
joints = ["a", "b"]

[[section]]
name = "PW"
kind = "points"
length = 50
speed = 90
joints = ["b", "c", "d"]

[[section]]
name = "L1"
kind = "plain"
length = 1000
speed = 90
joints = ["c", "e"]

[[section]]
name = "L2"
kind = "plain"
length = 1000
speed = 90
joints = ["d", "f"]

[[section]]
name = "PE"
kind = "points"
length = 50
speed = 90
joints = ["g", "e", "f"]

[[section]]
name = "E"
kind = "plain"
length = 1000
speed = 90
joints = ["g", "h"]

[[portal]]
name = "West"
joint = "a"
setting = 10
watching = 10
approach = 100

[[portal]]
name = "East"
joint = "h"
setting = 10
watching = 10
approach = 100

[[signal]]
name = "E1"
joint = "e"
ahead = "PE"
setting = 10
watching = 10
approach = 100

[[signal]]
name = "E2"
joint = "f"
ahead = "PE"
setting = 10
watching = 10
approach = 100

[[signal]]
name = "W1"
joint = "c"
ahead = "PW"
setting = 10
watching = 10
approach = 100

[[signal]]
name = "W2"
joint = "d"
ahead = "PW"
setting = 10
watching = 10
approach = 100

[[signal]]
name = "SW"
joint = "b"
ahead = "PW"
setting = 10
watching = 10
approach = 100

[[signal]]
name = "SE"
joint = "g"
ahead = "PE"
setting = 10
watching = 10
approach = 100

[[turn]]
arriving = "E1"
leaving = "W1"
time = 0

[[route]]
name = "we1"
from = "West"
to = "E1"
path = ["a", "W", "b", "PW", "c", "L1", "e"]

[[route]]
name = "we2"
from = "West"
to = "E2"
path = ["a", "W", "b", "PW", "d", "L2", "f"]

[[route]]
name = "ee1"
from = "E1"
to = "East"
path = ["e", "PE", "g", "E", "h"]

[[route]]
name = "ee2"
from = "E2"
to = "East"
path = ["f", "PE", "g", "E", "h"]

[[route]]
name = "ww1"
from = "East"
to = "W1"
path = ["h", "E", "g", "PE", "e", "L1", "c"]

[[route]]
name = "ww2"
from = "East"
to = "W2"
path = ["h", "E", "g", "PE", "f", "L2", "d"]

[[route]]
name = "xw1"
from = "W1"
to = "West"
path = ["c", "PW", "b", "W", "a"]

[[route]]
name = "xw2"
from = "W2"
to = "West"
path = ["d", "PW", "b", "W", "a"]

[[route]]
name = "w0"
from = "West"
to = "SW"
path = ["a", "W", "b"]

[[route]]
name = "wl1"
from = "SW"
to = "E1"
path = ["b", "PW", "c", "L1", "e"]

[[route]]
name = "wl2"
from = "SW"
to = "E2"
path = ["b", "PW", "d", "L2", "f"]

[[route]]
name = "e0"
from = "East"
to = "SE"
path = ["h", "E", "g"]

[[route]]
name = "el1"
from = "SE"
to = "W1"
path = ["g", "PE", "e", "L1", "c"]

[[route]]
name = "el2"
from = "SE"
to = "W2"
path = ["g", "PE", "f", "L2", "d"]

[[kind]]
name = "R"
length = 90
speed = 90
start = 100
stop = 50

[[train]]
name = "A"
kind = "R"
entry = "00:02:00"
routes = ["we1", "ee1"]

[[train]]
name = "B"
kind = "R"
entry = "00:02:00"
routes = ["ww2", "xw2"]
"#;

/// Two sections with a signal between them, behind which the second one is the overlap of the route to it.
pub(super) const OVERLAP: &str = r#"
version = 2
release = 20
section = [
    { name = "X1", kind = "plain", length = 1000, speed = 90, joints = ["a", "b"] },
    { name = "X2", kind = "plain", length = 1000, speed = 90, joints = ["b", "c"] },
]
portal = [
    { name = "West", joint = "a", setting = 10, watching = 10, approach = 100 },
    { name = "East", joint = "c", setting = 10, watching = 10, approach = 100 },
]
signal = [{ name = "S", joint = "b", ahead = "X2", setting = 10, watching = 10, approach = 100 }]
route = [
    { name = "ws", from = "West", to = "S", path = ["a", "X1", "b"], overlap = ["X2", "c"] },
    { name = "se", from = "S", to = "East", path = ["b", "X2", "c"] },
]
kind = [{ name = "R", length = 90, speed = 90, start = 100, stop = 50 }]
train = [{ name = "A", kind = "R", entry = "00:02:00", routes = ["ws", "se"] }]
"#;
