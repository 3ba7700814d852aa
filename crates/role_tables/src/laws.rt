ghost use Rattle.role_tables.specs.OneFault.{TableFaultsAreUnique, TableFaultsExcludeTables};

/// A technology's tables have at most one first fault, out of memory aside.
pub fn table_faults_are_unique()
    ensures { TableFaultsAreUnique }
{}

/// Where each role has its table there is no fault, out of memory aside.
pub fn table_faults_exclude_tables()
    ensures { TableFaultsExcludeTables }
{}
