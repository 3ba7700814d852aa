ghost use Rattle.cell_roles.specs.LeafRoles.{LeafTablesAgree};
ghost use Rattle.cell_roles.specs.Tables.{TablesAgree};

/// The formula of each role and its table say the same at each point of the table.
pub fn tables_agree()
    ensures { TablesAgree }
{}

/// And so do those of each role of both kinds of memory.
pub fn leaf_tables_agree()
    ensures { LeafTablesAgree }
{
    tables_agree();
}
