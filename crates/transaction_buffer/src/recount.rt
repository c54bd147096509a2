//! Figures counted over the sales themselves, without any sum that is kept.

ghost use Rattle.std.specs.Prelude.{◌≡◌, ◌^◌, ◌<◌};
ghost use Rattle.transaction_buffer.specs.Figures.{figure_in};
ghost use Rattle.transaction_buffer.specs.Shelves.{sum_on};
ghost use Rattle.transaction_buffer.specs.Sums.{sum_among};

use crate::figure::Figure;
use crate::sale::Sale;
use crate::shelf::Shelf;

/// Sums the figure over the sales of one point. It fits in 64 bits.
pub fn recount_among(sales: &[Sale], figure: &Figure) -> u64
    requires { sum_among (figure_in figure.now) sales.now < 2 ^ 64 }
    ensures { result ≡ sum_among (figure_in figure.now) sales.now }
{
    let mut sum = 0;
    for sale in sales {
        sum += figure.of(sale);
    }
    sum
}

/// Sums the figure over the sales on these shelves. It fits in 64 bits.
pub fn recount_on(shelves: &[Shelf], figure: &Figure) -> u64
    requires { sum_on (figure_in figure.now) shelves.now < 2 ^ 64 }
    ensures { result ≡ sum_on (figure_in figure.now) shelves.now }
{
    let mut sum = 0;
    for shelf in shelves {
        sum += shelf.recount(figure);
    }
    sum
}
