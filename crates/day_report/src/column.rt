//! What became of a product's volume, column by column.

ghost use Rattle.std.specs.Prelude.{◌≡◌};
ghost use Rattle.day_report.specs.People.{column_word, sum_in, volume_in};

use site_base::ProductView;

/// A column of volumes.
#[derive(Clone, Copy, Debug, PartialEq, Eq)]
pub enum Column {
    Metered,
    Running,
    Payable,
    Locked,
    Cleared,
    Adjusted,
}

/// The columns, from the left.
pub const COLUMNS: [Column; 6] = [
    Column::Metered,
    Column::Running,
    Column::Payable,
    Column::Locked,
    Column::Cleared,
    Column::Adjusted,
];

impl Column {
    /// Returns its title.
    pub fn word(&self) -> &str
        ensures { result.now ≡ column_word self.now }
    {
        match self {
            Column::Metered => "metered",
            Column::Running => "running",
            Column::Payable => "payable",
            Column::Locked => "locked",
            Column::Cleared => "cleared",
            Column::Adjusted => "adjusted",
        }
    }

    /// Returns the millilitres of a product in this column.
    pub fn volume(&self, view: &ProductView) -> u64
        ensures { result ≡ volume_in self.now view.now }
    {
        match self {
            Column::Metered => view.metered,
            Column::Running => view.running,
            Column::Payable => view.payable,
            Column::Locked => view.locked,
            Column::Cleared => view.cleared,
            Column::Adjusted => view.adjusted,
        }
    }

    /// Returns the millilitres of all products in this column.
    pub fn sum(&self, views: &[ProductView]) -> u128
        ensures { result ≡ sum_in self.now views.now }
    {
        let mut sum = 0;
        for view in views {
            sum += u128::from(self.volume(view));
        }
        sum
    }
}
