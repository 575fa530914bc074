//! The programs of the tests.

/// Rules over integers.
pub(crate) const NUMS: &[u8] =
    b"module nums\nimport global int; end\nrules for int\n  n, x, y : int;\nglobal\n  [r1] n => 1 end\n  [r2] n => 1 end\n  [one] n => 1 end\n  [two] n => 2 end\n  [inc] n => n + 1 end\n  [dec] n => n - 1 if n > 0 end\n  [loop] n => n end\n  [pairs] n => x * 10 + y\n    where x := (dk(one,two)) n\n    where y := (dk(one,two)) n\n    if x != y end\nend\nstrategies for int\n  implicit\n  [] slow => iterate*(loop) end\nend\nend\n";

/// Two rules for one constant.
pub(crate) const CHOICE: &[u8] =
    b"module choice\nsort s; end\noperators global\n  a : s;\n  b : s;\n  c : s;\n  g(@,@) : (s s) s;\nend\nrules for s\nglobal\n  [ab] a => b end\n  [ac] a => c end\nend\nend\n";

/// A module that needs lists.
pub(crate) const USES: &[u8] = b"module use\nimport global int list[int]; end\nend\n";

/// Lists over a sort.
pub(crate) const LIST: &[u8] =
    b"module list[X]\nsort list[X]; end\noperators global\n  nil : list[X];\n  @ . @ : (X list[X]) list[X] pri 5 assocRight;\nend\nend\n";

/// The same with another spelling.
pub(crate) const LIST_WITH_ANOTHER_SPELLING: &[u8] =
    b"module list[X]\nsort list[X]; end\noperators global\n  nil : list[X];\n  @ & @ : (X list[X]) list[X] pri 5 assocRight;\nend\nend\n";
