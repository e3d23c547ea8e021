mod examples;
mod files;
mod judged;
mod limits;
mod machine;
mod reports;
mod texts;
