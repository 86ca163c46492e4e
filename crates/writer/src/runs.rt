// The numbers of an image that are no cells: three before the first table, and two before the cells of each.
ghost use Rattle.std.specs.Prelude.{◌≡◌, [], ◌∷◌, ◌<◌};
ghost use Rattle.tables.specs.Catalogues.{scheme_of, count_of};
ghost use Rattle.tables.specs.Versions.{version_of};

use tables::Tables;

// The head: the version that the tables carry, m and n.
pub fn head(tables: &Tables<'_>) -> [u64; 3]
    ensures { let cat = tables.now.catalogue in result ≡ version_of cat ∷ cat.m ∷ cat.n ∷ [] }
{
    let cat = tables.catalogue;
    [u64::from(cat.version()), cat.m as u64, cat.n as u64]
}

// What stands before the cells of table t: its scheme and its row count.
pub fn table_head(tables: &Tables<'_>, t: usize) -> [u64; 2]
    requires { t < tables.now.catalogue.n }
    ensures { let cat = tables.now.catalogue in result ≡ scheme_of cat t ∷ count_of cat t ∷ [] }
{
    let cat = tables.catalogue;
    [cat.schemes[t], u64::from(cat.rows[t])]
}
