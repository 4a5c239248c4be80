// The changes that write tables and staged files.
ghost use Rattle.std.specs.Prelude.{◌≡◌, IfOk};
ghost use Rattle.store_layout.specs.Tables.{IsTableForm, IsStagedPath};
ghost use Rattle.table_names.specs.Changes.{set_table, make_table, stage, unstage};

use crate::paths::{staged_path, table_path};
use crate::values::table_value;
use node_store::NodeOp;
use row_keys::{Octets, Path, StagedName};
use std::alloc::{AllocError, Global};
use store_layout::TableNode;

/// The change that writes a table over the one of its id, which is to be there. Takes memory for it.
pub fn set_table_op(alloc: Global, table: &TableNode) -> Result<NodeOp, AllocError>
    requires { IsTableForm table.now }
    ensures { IfOk result (λ op. op ≡ set_table table.now) }
{
    Ok(NodeOp::Set {
        path: table_path(alloc, &table.id)?,
        value: table_value(alloc, table)?,
        version: None,
    })
}

/// The change that makes the node of a table, where none of its id is there. Takes memory for it.
pub fn make_table_op(alloc: Global, table: &TableNode) -> Result<NodeOp, AllocError>
    requires { IsTableForm table.now }
    ensures { IfOk result (λ op. op ≡ make_table table.now) }
{
    Ok(NodeOp::Create {
        path: table_path(alloc, &table.id)?,
        value: table_value(alloc, table)?,
    })
}

/// The change that makes the node of a staged file, where none of its name is there. Takes memory for it.
pub fn stage_op(alloc: Global, name: &StagedName, path: &Path) -> Result<NodeOp, AllocError>
    requires { IsStagedPath path.now }
    ensures { IfOk result (λ op. op ≡ stage name.now path.now) }
{
    Ok(NodeOp::Create {
        path: staged_path(alloc, name)?,
        value: Octets::new(alloc, path.as_bytes())?,
    })
}

/// The change that takes the node of a staged file out, where it is there. Takes memory for it.
pub fn unstage_op(alloc: Global, name: &StagedName) -> Result<NodeOp, AllocError>
    ensures { IfOk result (λ op. op ≡ unstage name.now) }
{
    Ok(NodeOp::Delete {
        path: staged_path(alloc, name)?,
        version: None,
    })
}
