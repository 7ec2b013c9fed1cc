//! A scene file.

/// Three sections from one portal to another, and one or two items of each other part.
pub(crate) const TRACK: &str = "\
version = 1
release = 20
[[section]]
name = 'A'
kind = 'plain'
length = 1000
speed = 90
joints = ['a', 'b']
[[section]]
name = 'P'
kind = 'points'
length = 50
speed = 90
joints = ['b', 'c', 'd']
[[section]]
name = 'C'
kind = 'plain'
length = 1000
speed = 90
joints = ['c', 'e']
[[portal]]
name = 'West'
joint = 'a'
setting = 10
watching = 10
approach = 100
[[portal]]
name = 'East'
joint = 'e'
setting = 10
watching = 10
approach = 100
[[signal]]
name = 'S'
joint = 'b'
ahead = 'P'
setting = 10
watching = 10
approach = 100
[[signal]]
name = 'T'
joint = 'c'
ahead = 'P'
setting = 10
watching = 10
approach = 100
[[board]]
name = 'B'
joint = 'd'
[[turn]]
arriving = 'S'
leaving = 'T'
time = 0
[[route]]
name = 'r'
from = 'West'
to = 'East'
path = ['a', 'A', 'b', 'P', 'c', 'C', 'e']
[[kind]]
name = 'k'
length = 90
speed = 90
start = 100
stop = 50
[[train]]
name = 't'
kind = 'k'
entry = '00:02:00'
routes = ['r']
";
