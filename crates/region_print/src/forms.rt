// The form of what is printed next.
ghost use Rattle.std.specs.Prelude.{◌≡◌};
ghost use Rattle.region_print.specs.Forms.{after_region, ended};

use crate::Form;

impl Form {
    // After a region.
    pub fn after_region(self) -> Form
        ensures { result ≡ after_region self }
    {
        match self {
            Form::Listing => Form::Listing,
            Form::Sheet { rows } => Form::Sheet {
                rows: region_sheet::rows_after(rows),
            },
        }
    }

    // After the last page.
    pub fn ended(self) -> Form
        ensures { result ≡ ended self }
    {
        match self {
            Form::Listing => Form::Listing,
            Form::Sheet { .. } => Form::Sheet { rows: 0 },
        }
    }
}
