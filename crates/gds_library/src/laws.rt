ghost use Rattle.gds_library.specs.OneFault.{FaultsAreUnique, FaultsExcludeLibraries};
ghost use Rattle.gds_library.specs.ReadLibrary.{LibrariesAreUnique};
ghost use Rattle.gds_library.specs.Writable.{LibrariesAreWritable};

/// No bytes spell two libraries.
pub fn libraries_are_unique()
    ensures { LibrariesAreUnique }
{}

/// What is spelled can be written: each of its values is one that a record can give.
pub fn libraries_are_writable()
    ensures { LibrariesAreWritable }
{}

/// Bytes have at most one fault, out of memory aside.
pub fn faults_are_unique()
    ensures { FaultsAreUnique }
{}

/// Bytes that spell a library have no fault, out of memory aside.
pub fn faults_exclude_libraries()
    ensures { FaultsExcludeLibraries }
{}
