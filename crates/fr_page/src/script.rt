// Stepping through a run, by buttons and by keys; a page without a run has no player, and opens at the first point that
// fails, if one does.

pub const STEPS: &str = "'use strict';
const player = document.querySelector('.player');
const failing = document.querySelector('.fails');
if (failing && !player && !location.hash) failing.scrollIntoView({ block: 'center' });
if (player) {
  const steps = document.querySelectorAll('.step');
  const states = document.querySelectorAll('.states dl');
  const [first, back, next, last] = player.querySelectorAll('button');
  let at = steps.length - 1;
  const show = (number) => {
    steps[at].classList.remove('current');
    at = Math.max(0, Math.min(steps.length - 1, number));
    steps[at].classList.add('current');
    player.querySelector('output').textContent = steps[at].cells[0].textContent;
    player.querySelector('div').replaceChildren(states[at].cloneNode(true));
    first.disabled = back.disabled = at === 0;
    next.disabled = last.disabled = at === steps.length - 1;
  };
  const go = (number) => {
    show(number);
    (steps[at].querySelector('.does') || steps[at]).scrollIntoView({ block: 'center', inline: 'nearest' });
    steps[at].closest('.scroll').scrollIntoView({ block: 'start' });
  };
  first.onclick = () => go(0);
  back.onclick = () => go(at - 1);
  next.onclick = () => go(at + 1);
  last.onclick = () => go(steps.length - 1);
  steps.forEach((step, number) => { step.onclick = () => show(number); });
  document.addEventListener('keydown', (key) => {
    if (key.ctrlKey || key.altKey || key.metaKey) return;
    if (key.key === 'ArrowLeft') go(at - 1);
    else if (key.key === 'ArrowRight') go(at + 1);
    else return;
    key.preventDefault();
  });
  player.hidden = false;
  show(0);
}
";
