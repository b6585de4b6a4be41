//! Laws of the image of vital product data, and of the rows that it is made of.
ghost use Rattle.std.specs.Prelude.{◌≡◌, List, All, Ok, map};
ghost use Rattle.doc_types.specs.declared.asks.ModuleAsk.{ModuleAsk};
ghost use Rattle.doc_types.specs.declared.asks.PlatformAsk.{PlatformAsk};
ghost use Rattle.doc_types.specs.declared.values.Values.{Values};
ghost use Rattle.doc_types.specs.declared.vpd.Vpd.{Vpd};
ghost use Rattle.pcd_resolve.specs.Platform.{platform_values};
ghost use Rattle.pcd_resolve.specs.Rows.{module_values};
ghost use Rattle.vpd_image.specs.declared.ask.VpdAsk.{VpdAsk};
ghost use Rattle.vpd_image.specs.Entries.{Entry};
ghost use Rattle.vpd_image.specs.Places.{placed};
ghost use Rattle.vpd_image.specs.Vpd.{vpd_of};
ghost use Rattle.vpd_laws.specs.Sized.{IsSized, IsRead};

/// Where the values fit their places, the image has each entry's value at its place, and zeros
/// behind the value up to the place's end.
pub fn values_are_read()
    ensures entries { (entries : List Entry)
        → map (λ placed. placed.entry) (placed entries) ≡ entries }
    ensures read { (ask : VpdAsk) (vpd : Vpd) → All IsSized ask.values.rows
        → vpd_of ask ≡ Ok vpd → IsRead ask vpd }
{}

/// The values of a platform's dynamic PCDs fit their places, and so do those of a module.
pub fn values_are_sized()
    ensures platform { (ask : PlatformAsk) (values : Values) → platform_values ask ≡ Ok values
        → All IsSized values.rows }
    ensures modules { (ask : ModuleAsk) (values : Values) → All IsSized ask.dynamic.rows
        → module_values ask ≡ Ok values → All IsSized values.rows }
{}
