ghost use Rattle.std.specs.Prelude.{◌≡◌, map};
ghost use Rattle.cell_roles.specs.LeafRoles.{leaf_table_texts};
ghost use Rattle.cell_roles.specs.RowTexts.{table_texts};

use crate::leaf_role::LeafRole;
use crate::role::Role;

/// The rows of a role's table, as a technology file writes them.
pub fn table_rows(role: Role) -> &'static [&'static str]
    ensures { map (λ row. row.now) result.now ≡ table_texts role }
{
    match role {
        Role::Bitcell => &[
            "0xx/x = zz//=",
            "100/0 = lz//0",
            "100/1 = zl//1",
            "101/0 = lz//0",
            "101/1 = zl//0",
            "110/0 = lz//1",
            "110/1 = zl//1",
            "111/0 = lz//0",
            "111/1 = zl//1",
        ],
        Role::Precharge => &["0/ = 11//", "1/ = zz//"],
        Role::Mux => &["0/ = /--/", "1/ = /jj/"],
        Role::Tie => &["/ = //"],
        Role::Sense => &[
            "0xx/ = z//",
            "100/ = z//",
            "101/ = 0//",
            "110/ = 1//",
            "111/ = z//",
        ],
        Role::Write => &["0x/ = zz//", "10/ = 01//", "11/ = 10//"],
        Role::RowNand2 | Role::Nand2 => &["0x/ = 1//", "10/ = 1//", "11/ = 0//"],
        Role::RowNand3 | Role::Nand3 => &["0xx/ = 1//", "10x/ = 1//", "110/ = 1//", "111/ = 0//"],
        Role::Driver => &["x0/ = 0//", "01/ = 1//", "11/ = 0//"],
        Role::Inv => &["0/ = 1//", "1/ = 0//"],
        Role::Dff => &[
            "01/x0 = 0//01",
            "11/x0 = 1//11",
            "x1/01 = 0//01",
            "x1/11 = 1//11",
            "x0/0x = 0//00",
            "x0/1x = 1//10",
        ],
        Role::Delay => &["0/0 = 0//0", "1/0 = 0//1", "0/1 = 1//0", "1/1 = 1//1"],
    }
}

/// The same for the roles of both kinds of memory.
pub fn leaf_table_rows(role: LeafRole) -> &'static [&'static str]
    ensures { map (λ row. row.now) result.now ≡ leaf_table_texts role }
{
    match role {
        LeafRole::Common(role) => table_rows(role),
        LeafRole::Fixed(false) => &["0/ = zz//", "1/ = lz//"],
        LeafRole::Fixed(true) => &["0/ = zz//", "1/ = zl//"],
    }
}
