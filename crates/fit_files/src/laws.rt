//! Laws of the definitions, as contracts of functions that do nothing.

ghost use Rattle.fit_files.specs.Laws.{FilesAreFit};

/// The world that an RDB file means, at whatever moment it is loaded, is one that an RDB file can hold.
pub fn files_are_fit()
    ensures { FilesAreFit }
{}
