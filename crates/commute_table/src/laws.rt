// What is proved of the bytes of catalogs.
ghost use Rattle.commute_table.specs.Bytes.{NoCatalogBeginsAnother};

/// No catalog's bytes begin another's.
pub fn no_catalog_begins_another()
    ensures { NoCatalogBeginsAnother }
{}
