//! Edit files for the scene of three sections, each behind a line with what is answered to it.

/// The names of the sections after the edits.
pub(super) const FILES: &str = "\
== A P C / \n\
== A P C / \nadd section Z plain 500 80 y z\nundo\n\
== A P C Z / \nadd section Z plain 500 80 y z\nundo\nredo\n\
== A P C / \nadd section Z plain 500 80 d z\nundo\n\
== A P C / \nremove turn S T\nundo\n\
== A P C / \nremove route r\nundo\n\
== A P C / \nremove turn S T\nremove post S\nadd signal S b P 10 10 100\n\
== A P C / \nadd turn T S 5\n  add  route q West S a A b  \n\
";
