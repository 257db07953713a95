//! Tests of public calls of dist_matrix and product_rounds: strips of matrices, sites, and the rounds of code strips and of products.
#![tactic(auto)]

#[cfg(test)]
mod products;
#[cfg(test)]
mod site;
#[cfg(test)]
mod strips;
